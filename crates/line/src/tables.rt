//! Tables of records, by their numbers.
ghost use Rattle.std.specs.Prelude.{◌≡◌, ◌<◌, if◌then◌else◌, nat_le};
ghost use Rattle.line.specs.Tables.{no_records, record_at, with_record};

use crate::refusals::Refusal;

// A place for each number below N, with a record or none.
#[derive(Drop)]
pub(crate) struct Table<T, const N: usize> {
    pub(crate) records: [Option<T>; N],
}

impl<T: Copy, const N: usize> Table<T, N> {
    // A table without a record.
    #[tactic(auto, unfolding(crate::specs::Tables::no_records))]
    pub(crate) fn new() -> Table<T, N>
        ensures { result ≡ no_records }
    {
        Table { records: [None; N] }
    }

    // What stands at a number, or the refusal of a number past the end.
    pub(crate) fn place(&self, number: u32, past: Refusal) -> Result<Option<T>, Refusal>
        ensures { result ≡ (if nat_le N number then Err past else Ok (record_at self.now number)) }
    {
        self.records.get(number as usize).copied().ok_or(past)
    }

    // The record at a number; nothing stands past the end.
    pub(crate) fn record_at(&self, number: u32) -> Option<T>
        ensures { result ≡ record_at self.now number }
    {
        self.records.get(number as usize).copied().flatten()
    }

    // The new record takes the place of what stood there.
    pub(crate) fn put(&mut self, number: u32, new: T)
        requires { number < N }
        ensures { self.new ≡ with_record self.old number new }
    {
        // An index is plainer than `get_mut`, which would pass over a number past the end and wants a proof by hand.
        self.records[number as usize] = Some(new);
    }
}
