//! The three kinds of meters.
ghost use Rattle.std.specs.Prelude.{◌≡◌, [], ◌∷◌};

use crate::meter::Meter;
use oc_items::item::Item;

/// Counts inputs, outputs, commits, aborts and outages.
#[derive(Drop)]
pub struct Counts {
    inputs: u64,
    outputs: u64,
    commits: u64,
    aborts: u64,
    outages: u64,
}

impl Counts {
    /// A meter that was told nothing yet.
    pub fn new() -> Counts
        ensures { ⟦<Counts as Meter>⟧.numbers result ≡ 0 ∷ 0 ∷ 0 ∷ 0 ∷ 0 ∷ [] }
    {
        Counts {
            inputs: 0,
            outputs: 0,
            commits: 0,
            aborts: 0,
            outages: 0,
        }
    }
}

impl Meter for Counts {
    ghost use Rattle.std.specs.Prelude.{[], ◌∷◌};

    ghost kind_of = { λ _. 0 };

    ghost numbers = { λ m. m.inputs ∷ m.outputs ∷ m.commits ∷ m.aborts ∷ m.outages ∷ [] };

    fn kind(&self) -> u8 {
        0
    }

    fn number(&self, at: u8) -> u64 {
        match at {
            0 => self.inputs,
            1 => self.outputs,
            2 => self.commits,
            3 => self.aborts,
            _ => self.outages,
        }
    }

    fn tell(&mut self, item: &Item) {
        match item {
            Item::Sense { .. } => self.inputs = self.inputs.saturating_add(1),
            Item::Emit { .. } => self.outputs = self.outputs.saturating_add(1),
            Item::Commit { .. } => self.commits = self.commits.saturating_add(1),
            Item::Abort { .. } => self.aborts = self.aborts.saturating_add(1),
            Item::Off { .. } => self.outages = self.outages.saturating_add(1),
            _ => {}
        }
    }
}

/// The sum and the greatest of the times without power.
#[derive(Drop)]
pub struct OffTime {
    sum: u64,
    greatest: u64,
}

impl OffTime {
    /// A meter that was told nothing yet.
    pub fn new() -> OffTime
        ensures { ⟦<OffTime as Meter>⟧.numbers result ≡ 0 ∷ 0 ∷ [] }
    {
        OffTime {
            sum: 0,
            greatest: 0,
        }
    }
}

impl Meter for OffTime {
    ghost use Rattle.std.specs.Prelude.{[], ◌∷◌};

    ghost kind_of = { λ _. 1 };

    ghost numbers = { λ m. m.sum ∷ m.greatest ∷ [] };

    fn kind(&self) -> u8 {
        1
    }

    fn number(&self, at: u8) -> u64 {
        match at {
            0 => self.sum,
            _ => self.greatest,
        }
    }

    fn tell(&mut self, item: &Item) {
        if let Item::Off { ticks, .. } = *item {
            self.sum = self.sum.saturating_add(ticks);
            self.greatest = self.greatest.max(ticks);
        }
    }
}

/// The aborts since the last commit, and the most of these.
#[derive(Drop)]
pub struct Retries {
    aborts: u64,
    most: u64,
}

impl Retries {
    /// A meter that was told nothing yet.
    pub fn new() -> Retries
        ensures { ⟦<Retries as Meter>⟧.numbers result ≡ 0 ∷ 0 ∷ [] }
    {
        Retries { aborts: 0, most: 0 }
    }
}

impl Meter for Retries {
    ghost use Rattle.std.specs.Prelude.{[], ◌∷◌};

    ghost kind_of = { λ _. 2 };

    ghost numbers = { λ m. m.aborts ∷ m.most ∷ [] };

    fn kind(&self) -> u8 {
        2
    }

    fn number(&self, at: u8) -> u64 {
        match at {
            0 => self.aborts,
            _ => self.most,
        }
    }

    fn tell(&mut self, item: &Item) {
        match item {
            Item::Abort { .. } => {
                self.aborts = self.aborts.saturating_add(1);
                self.most = self.most.max(self.aborts);
            }
            Item::Commit { .. } => self.aborts = 0,
            _ => {}
        }
    }
}
