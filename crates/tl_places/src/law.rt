//! What holds of the places of each run.

ghost use Rattle.std.specs.Prelude.{List};
ghost use Rattle.std.specs.List.{AllByRecursion};
ghost use Rattle.tl_base.specs.declared.place.Settings.{Settings};
ghost use Rattle.tl_isolation.specs.declared.script.Script.{Script as TheScript};
ghost use Rattle.tl_places.specs.Places.{AreAt, PlacesState};
ghost use Rattle.tl_journal.specs.Journal.{AreServed, IsCall};
ghost use Rattle.tl_journal.specs.declared.event.Event.{Event};

/// Where the events of a run have brought its places there, each place serves what it was asked.
pub fn places_serve_their_logs()
    ensures { (script : TheScript) (settings : Settings) (events : List Event) (places : PlacesState) → AreAt script settings events places
        → AllByRecursion (λ (e : Event). IsCall e.place e.request e.reply) events → AreServed script settings events }
{}
