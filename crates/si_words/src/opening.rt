//! The words are opened with all their seats.
ghost use Rattle.std.specs.Prelude.{◌≡◌, ◌+◌, ◌<◌, ◌≤◌, IfOk, []};
ghost use Rattle.si_words.specs.Seats.{seated, new_shards, new_passes};
ghost use Rattle.si_words.specs.Views.{new_book, new_shard, new_pass, book_view, book_and_opener, opener_from};

use crate::rule::{TableSeat, WordTable};
use crate::seats::{BookSeat, Pass, ShardSeat};
use crate::steps::{NextPass, NextShard, Opened};
use crate::words::Words;
use atomic_table::Table;
use si_model::OutOfMemory;
use std::alloc::Global;

impl Words {
    /// The words of so many shards, with the seat of the book, one seat a shard and the passes. Nothing is issued, and the
    /// words aren't closed.
    pub fn open(
        alloc: Global,
        shards: usize,
        passes: usize,
    ) -> Result<(Words, BookSeat, Vec<ShardSeat>, Vec<Pass>), OutOfMemory>
        requires shards { (1 ≤ shards) × (shards ≤ 16) }
        requires passes { (1 ≤ passes) × (passes ≤ 16) }
        ensures words { IfOk result (λ o. (o.0.shards ≡ shards) × (o.0.passes ≡ passes)) }
        ensures book { IfOk result (λ o. o.1 ≡ seated o.0.table (new_book passes)) }
        ensures shard_seats { IfOk result (λ o. o.2.items ≡ new_shards o.0.table shards) }
        ensures all_passes { IfOk result (λ o. o.3.items ≡ new_passes o.0.table shards passes) }
    {
        let zeros = Vec::from_elem(alloc, 0, 2 + shards)?;
        let (table, mut place): (WordTable, TableSeat) = Table::of_words(
            alloc,
            zeros.as_slice(),
            &(shards, passes),
        )?;
        let words = Words { table, shards };
        let seats = words.shard_seats(alloc, &mut place)?;
        let all_passes = words.passes(alloc, passes, &mut place)?;
        let book = words.book_seat(place);
        Ok((words, book, seats, all_passes))
    }

    fn shard_seats(
        &self,
        alloc: Global,
        place: &mut TableSeat,
    ) -> Result<Vec<ShardSeat>, OutOfMemory>
        requires own { place.old.table_id ≡ self.now.table }
        requires view { place.old.me ≡ (book_and_opener (new_book self.now.passes) (opener_from self.now.shards 0 0), []) }
        ensures own { place.new.table_id ≡ place.old.table_id }
        ensures view { IfOk result (λ _. place.new.me ≡ (book_and_opener (new_book self.now.passes) (opener_from self.now.shards self.now.shards 0), [])) }
        ensures seats { IfOk result (λ seats. seats.items ≡ new_shards self.now.table self.now.shards) }
    {
        let mut seats = Vec::new(alloc);
        for number in 0..self.shards {
            seats.push(self.next_shard(place, number))?;
        }
        Ok(seats)
    }

    fn passes(
        &self,
        alloc: Global,
        count: usize,
        place: &mut TableSeat,
    ) -> Result<Vec<Pass>, OutOfMemory>
        requires own { place.old.table_id ≡ self.now.table }
        requires view { place.old.me ≡ (book_and_opener (new_book self.now.passes) (opener_from self.now.shards self.now.shards 0), []) }
        requires all { count ≡ self.now.passes }
        ensures own { place.new.table_id ≡ place.old.table_id }
        ensures view { IfOk result (λ _. place.new.me ≡ (book_and_opener (new_book self.now.passes) (opener_from self.now.shards self.now.shards count), [])) }
        ensures passes { IfOk result (λ passes. passes.items ≡ new_passes self.now.table self.now.shards count) }
    {
        let mut passes = Vec::new(alloc);
        for number in 0..count {
            passes.push(self.next_pass(place, number))?;
        }
        Ok(passes)
    }

    fn next_shard(&self, place: &mut TableSeat, number: usize) -> ShardSeat
        requires own { place.old.table_id ≡ self.now.table }
        requires view { place.old.me ≡ (book_and_opener (new_book self.now.passes) (opener_from self.now.shards number 0), []) }
        requires below { number < self.now.shards }
        ensures own { place.new.table_id ≡ place.old.table_id }
        ensures view { place.new.me ≡ (book_and_opener (new_book self.now.passes) (opener_from self.now.shards (number + 1) 0), []) }
        ensures seat { result ≡ seated self.now.table (new_shard number) }
    {
        let badge = self
            .table
            .shared
            .split_seat::<NextShard>(place)
            .into_badge();
        ShardSeat { number, badge }
    }

    fn next_pass(&self, place: &mut TableSeat, number: usize) -> Pass
        requires own { place.old.table_id ≡ self.now.table }
        requires view { place.old.me ≡ (book_and_opener (new_book self.now.passes) (opener_from self.now.shards self.now.shards number), []) }
        requires below { number < self.now.passes }
        ensures own { place.new.table_id ≡ place.old.table_id }
        ensures view { place.new.me ≡ (book_and_opener (new_book self.now.passes) (opener_from self.now.shards self.now.shards (number + 1)), []) }
        ensures pass { result ≡ seated self.now.table (new_pass self.now.shards number) }
    {
        let badge = self.table.shared.split_seat::<NextPass>(place).into_badge();
        Pass { badge }
    }

    /// The opener's part is dropped, and the book's stays.
    fn book_seat(&self, mut place: TableSeat) -> BookSeat
        requires own { place.table_id ≡ self.now.table }
        requires view { place.me ≡ (book_and_opener (new_book self.now.passes) (opener_from self.now.shards self.now.shards self.now.passes), []) }
        ensures { result ≡ seated self.now.table (new_book self.now.passes) }
    {
        self.table.shared.split_seat::<Opened>(&mut place);
        BookSeat { place }
    }
}
