ghost use Rattle.std.specs.Prelude.{◌≡◌, ◌≤◌, ◌<◌};
ghost use Rattle.tl_journal.specs.Bytes.{home_of};

use std::marker::Model;
use tl_base::{NodeId, Settings};

/// The settings of a run whose shards and managers are as many as a run can have.
#[derive(Clone, Copy, Debug)]
pub struct Layout {
    settings: Settings,
}

impl Model for Layout {
    ghost use Rattle.std.specs.Prelude.{◌≤◌};
    ghost use Rattle.tl_base.specs.declared.place.Settings.{Settings};

    ghost Value = { Settings };

    ghost view = { λ layout. layout.settings };

    ghost invariant = { λ layout. ((1 ≤ layout.settings.shards) × (layout.settings.shards ≤ 16)) × ((1 ≤ layout.settings.managers) × (layout.settings.managers ≤ 4)) };

    ghost inverse = { λ settings. record { settings = settings } };
}

impl Layout {
    /// The layout that these settings say.
    pub fn new(settings: &Settings) -> Layout
        requires least_shards { 1 ≤ settings.now.shards }
        requires greatest_shards { settings.now.shards ≤ 16 }
        requires least_managers { 1 ≤ settings.now.managers }
        requires greatest_managers { settings.now.managers ≤ 4 }
        ensures { result ≡ settings.now }
    {
        Layout {
            settings: *settings,
        }
    }

    /// From 1 to 16.
    pub fn shards(self) -> u8
        ensures value { result ≡ self.shards }
        ensures least { 1 ≤ result }
        ensures greatest { result ≤ 16 }
    {
        self.settings.shards
    }

    /// From 1 to 4.
    pub fn managers(self) -> u8
        ensures value { result ≡ self.managers }
        ensures least { 1 ≤ result }
        ensures greatest { result ≤ 4 }
    {
        self.settings.managers
    }

    /// The manager of a node.
    pub fn home_of(self, node: NodeId) -> u8
        ensures value { result ≡ home_of self node }
        ensures within { result < self.managers }
    {
        (node.number() - 1) % self.settings.managers
    }
}
