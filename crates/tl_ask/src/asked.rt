use tl_base::PlaceId;
use tl_manager::Request;

/// A request, with the place that it goes to.
#[derive(Debug, Drop)]
pub struct Asked {
    pub place: PlaceId,
    pub request: Request,
}
