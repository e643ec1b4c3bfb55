ghost use Rattle.std.specs.Prelude.{◌≡◌, ◌≤◌};

use std::marker::Model;
use tl_ask::Layout;
use tl_base::Settings;

/// The settings of a run, with the layout that they say.
#[derive(Debug, Drop)]
pub struct Terms {
    layout: Layout,
    budget: u32,
}

impl Model for Terms {
    ghost use Rattle.std.specs.Prelude.{◌≡◌};
    ghost use Rattle.tl_base.specs.declared.place.Settings.{Settings};

    ghost Value = { Settings };

    ghost view = { λ terms. terms.layout };

    ghost invariant = { λ terms. terms.budget ≡ terms.layout.budget };
}

impl Terms {
    /// Those that these settings say.
    pub fn new(settings: &Settings) -> Terms
        requires least_shards { 1 ≤ settings.now.shards }
        requires greatest_shards { settings.now.shards ≤ 16 }
        requires least_managers { 1 ≤ settings.now.managers }
        requires greatest_managers { settings.now.managers ≤ 4 }
        ensures { result ≡ settings.now }
    {
        Terms {
            layout: Layout::new(settings),
            budget: settings.budget,
        }
    }

    pub fn layout(&self) -> Layout
        ensures { result ≡ self.now }
    {
        self.layout
    }

    /// How many requests a node may make.
    pub fn budget(&self) -> u32
        ensures { result ≡ self.now.budget }
    {
        self.budget
    }
}
