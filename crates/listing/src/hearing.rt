//! What a record does to the names.

ghost use Rattle.std.specs.Prelude.{◌≡◌};
ghost use Rattle.listing.specs.Names.{nothing, opened, or_else, refusal_of, sorts_after, sorts_of};
ghost use Rattle.paired.specs.Pairings.{answer, count_questions, left};

use crate::names::Names;
use arrangement::Refusal;
use paired::store::Paired;
use record::entry::Record;

impl Names {
    /// No names, before the first record.
    pub fn new() -> Names
        ensures { sorts_of result ≡ nothing }
    {
        Names {
            slots: Paired::new(),
            readings: Paired::new(),
        }
    }

    /// Sets both counts, or neither.
    fn open(&mut self, slots: u8, readings: u8) -> Result<(), Refusal>
        ensures answer { result ≡ answer (or_else (count_questions slots) (count_questions readings)) tt }
        ensures holds { sorts_of self.new ≡ left (or_else (count_questions slots) (count_questions readings)) (opened slots readings) (sorts_of self.old) }
    {
        // Asked before the slots are set, so that a refusal leaves both as they are.
        if readings > 64 {
            return Err(Refusal::TooManyNames);
        }
        self.slots.set_count(slots)?;
        self.readings.set_count(readings)
    }

    /// Opens or pairs as the record says, or answers why that is refused.
    pub fn hear(&mut self, record: &Record) -> Result<(), Refusal>
        ensures answer { result ≡ answer (refusal_of (sorts_of self.old) «record».now) tt }
        ensures holds { sorts_of self.new ≡ sorts_after (sorts_of self.old) «record».now }
    {
        match *record {
            Record::Open {
                slots,
                readings,
                ..
            } => self.open(slots, readings),
            Record::PairSlots { i, j } => self.slots.pair(i.0, j.0),
            Record::PairReadings { v, w } => self.readings.pair(v.0, w.0),
            Record::State(_) => Ok(()),
        }
    }
}
