//! A map of blocks in memory, with the points that were made of it. It has no journal and no disk: nothing
//! fails, nothing waits, and blocks that were freed may be taken again after the next sync. What is known
//! of it is described by `state_of` of specs/PlainOf.

ghost use Rattle.std.specs.Prelude.{◌≡◌, ◌+◌, ◌-◌, ◌*◌, ◌/◌, ◌<◌, ◌≤◌, ℕ, Bool, true, false, not, length, [], ◌∷◌, take, IfOk};
ghost use Rattle.base_types.specs.Seal.{blocks_of};
ghost use Rattle.layout_geometry.specs.Geometry.{data_start, bitmap_blocks};
ghost use Rattle.layout_bytes.specs.Bitmap.{bit_in, is_set};
ghost use Rattle.layout_bitmap.specs.Bits.{IsFree, free_blocks};
ghost use Rattle.engine_blocks.specs.Running.{is_taken, count_roles};
ghost use Rattle.engine_blocks.specs.Plain.{role_in, bits_of, IsWithBits};

use crate::bits::{bit_block, lowest_places, read_bits, write_bit};
use crate::formatting::formatted_blocks;
use crate::history::History;
use crate::role::{forget, put_role, untouched_roles};
use crate::{Blocks, Figures, LowestRefusal, Role, SyncRefusal, WaitRefusal};
use base_types::{Block, Class, NoMemory, Places, ReadFault};
use disk_contract::DiskFault;
use layout_bitmap::{a_cleared_block_is_free_again, a_set_block_is_free_no_more, set};
use layout_geometry::Geom;
use layout_journal::the_formatted_disk_is_empty;
use std::alloc::Global;

/// A map of blocks in memory.
#[derive(Drop)]
pub struct PlainBlocks {
    geom: Geom,
    /// The blocks of the disk, of which the headers and the journal aren't used.
    history: History,
    /// The bitmap, with the bits of held blocks set too: those that are clear may be taken.
    busy: Vec<Block>,
    /// What the running transaction has of each block.
    roles: Vec<Role>,
    live: u32,
    held: u32,
    took: u32,
    weight: u32,
    puts: u32,
    takes: u32,
    frees: u32,
    floor: u64,
    ticks: u64,
    ghost size: { length history.now ≡ geom.n },
    ghost busy_size: { length busy.items ≡ bitmap_blocks geom },
    ghost roles_size: { length roles.items ≡ geom.n },
    ghost whole: { (b : ℕ) → b < geom.n → length (blocks_of history.now b) ≡ 1024 },
    ghost live_is: { live + length (free_blocks geom (bits_of geom (blocks_of history.now))) ≡ geom.n - data_start geom },
    ghost accounts: { length (free_blocks geom (blocks_of busy.items)) + live + held ≡ geom.n - data_start geom },
    ghost unmarked: { (b : ℕ) → IsFree geom (blocks_of busy.items) b → is_set geom (blocks_of history.now) b ≡ false },
    ghost fits: { weight ≤ 24 * (geom.j - 2) },
    ghost took_them: { count_roles geom is_taken (role_in roles.items) ≤ took },
    ghost took_few: { took ≤ live + held },
    ghost ready: { puts + takes + frees ≤ history.room },
    ghost floor_is: { floor < length history.points },
}

impl Blocks for PlainBlocks {
    ghost use Rattle.std.specs.Prelude.{true};
    ghost use Rattle.engine_blocks.specs.PlainOf.{state_of};
    ghost use Rattle.engine_blocks.specs.PlainLaws.{plain_is_sound, plain_is_told};

    ghost tells = { true };

    ghost state = { λ p. state_of p };

    ghost is_sound = { λ p. plain_is_sound p };

    ghost is_told = { λ p tells. plain_is_told p };

    fn geom(&self) -> Geom {
        self.geom
    }

    #[tactic(auto, using(crate::specs::PlainLaws::live_counted))]
    fn figures(&self) -> Figures {
        self.geom.lawful();
        Figures {
            area: self.area(),
            live: self.live,
            held: self.held,
            waiting: 0,
            weight: self.weight,
            room: 24 * (self.geom.j() - 2),
            point: self.last(),
            floor: self.floor,
            free_places: self.geom.j(),
            stopped: false,
            spent: false,
        }
    }

    fn get(&mut self, b: u32, into: &mut Block) -> Result<(), ReadFault> {
        *into = *self.history.block(b);
        Ok(())
    }

    fn prepare(
        &mut self,
        _alloc: Global,
        puts: u32,
        takes: u32,
        frees: u32,
    ) -> Result<(), NoMemory> {
        let puts = self.puts.max(puts);
        let takes = self.takes.max(takes);
        let frees = self.frees.max(frees);
        self.history
            .reserve(puts as usize + takes as usize + frees as usize)?;
        self.puts = puts;
        self.takes = takes;
        self.frees = frees;
        Ok(())
    }

    fn lowest(&mut self, alloc: Global, n: u32, into: &mut Places) -> Result<(), LowestRefusal> {
        let reusable = self.reusable();
        if n > reusable {
            return Err(LowestRefusal::Short { need: n, reusable });
        }
        match lowest_places(alloc, &self.geom, self.busy.as_slice(), n) {
            Ok(places) => *into = places,
            Err(NoMemory) => return Err(LowestRefusal::NoMemory),
        }
        Ok(())
    }

    fn take(&mut self, list: &Places) {
        for b in list.as_slice() {
            self.take_one(*b);
        }
    }

    fn put(&mut self, b: u32, from: &Block, class: Class) {
        self.history.set(b, from);
        self.roles[b as usize] = put_role(class, self.roles[b as usize]);
        self.puts -= 1;
    }

    fn free(&mut self, b: u32) {
        a_cleared_block_is_free_again();
        write_bit(&mut self.history, &self.geom, b, false);
        self.roles[bit_block(&self.geom, b) as usize] = Role::Changed;
        self.roles[b as usize] = Role::Untouched;
        self.live -= 1;
        self.held += 1;
        self.frees -= 1;
    }

    fn weigh(&mut self, cost: u32) {
        self.geom.lawful();
        self.weight += cost;
    }

    fn tick(&mut self) -> Result<(), DiskFault> {
        self.ticks = self.ticks.saturating_add(1);
        Ok(())
    }

    fn settle(&mut self) -> Result<(), DiskFault> {
        Ok(())
    }

    fn osync(&mut self, _alloc: Global) -> Result<u64, SyncRefusal> {
        if self.weight == 0 {
            return Ok(self.last());
        }
        if self.end_transaction().is_err() {
            return Err(SyncRefusal::NoMemory);
        }
        Ok(self.last())
    }

    fn dsync(&mut self, alloc: Global) -> Result<u64, SyncRefusal> {
        let point = self.osync(alloc)?;
        self.floor = point;
        Ok(point)
    }

    fn wait_for(&mut self, n: u64) -> Result<(), WaitRefusal> {
        let last = self.last();
        if n > last {
            return Err(WaitRefusal::NoPoint { last });
        }
        self.floor = self.floor.max(n);
        Ok(())
    }

    fn durable(&self) -> u64 {
        self.floor
    }
}

impl PlainBlocks {
    ghost use Rattle.std.specs.Prelude.{◌≡◌, ◌+◌, ◌-◌, ◌<◌, ◌≤◌, ℕ, true, not, length, [], ◌∷◌, ◌++◌, IfOk, OnOk, OnErr};
    ghost use Rattle.base_types.specs.Seal.{blocks_of};
    ghost use Rattle.layout_geometry.specs.Geometry.{bitmap_start, data_start};
    ghost use Rattle.layout_journal.specs.Formatted.{formatted};
    ghost use Rattle.layout_bytes.specs.Bitmap.{bit_in};
    ghost use Rattle.engine_blocks.specs.Running.{nothing_running};
    ghost use Rattle.engine_blocks.specs.Plain.{clear_in};
    ghost use Rattle.engine_blocks.specs.State.{reusable_blocks, live_blocks, IsReusable, after_take};
    ghost use Rattle.engine_blocks.specs.Crashes.{IsBegun, HasMapOfPoint};
    ghost use Rattle.engine_blocks.specs.Puts.{IsData};
    ghost use Rattle.engine_blocks.specs.PlainOf.{books_of, state_of};

    /// The blocks of a disk that was just formatted, of which this is point 0. Of the headers and the
    /// journal nothing is said.
    ///
    /// # Errors
    /// Out of memory.
    pub fn formatted(alloc: Global, geom: Geom) -> Result<PlainBlocks, NoMemory>
        ensures begun { IfOk result (λ p. IsBegun (state_of p)) }
        ensures point { IfOk result (λ p. HasMapOfPoint (state_of p) 0) }
        ensures geom { IfOk result (λ p. (state_of p).books.geom ≡ geom) }
        ensures map { IfOk result (λ p. (b : ℕ) → bitmap_start geom ≤ b → b < data_start geom → (state_of p).map b ≡ formatted geom b) }
    {
        geom.lawful();
        the_formatted_disk_is_empty();
        let blocks = formatted_blocks(alloc, &geom, 0, geom.n())?;
        let busy = formatted_blocks(alloc, &geom, geom.bitmap_start(), geom.table_start())?;
        let roles = untouched_roles(alloc, geom.n())?;
        let history = History::new(alloc, blocks)?;
        Ok(PlainBlocks {
            geom,
            history,
            busy,
            roles,
            live: 0,
            held: 0,
            took: 0,
            weight: 0,
            puts: 0,
            takes: 0,
            frees: 0,
            floor: 0,
            ticks: 0,
        })
    }

    /// How many data blocks there are.
    fn area(&self) -> u32
        ensures { result ≡ (books_of self.now).area }
    {
        self.geom.lawful();
        self.geom.n() - self.geom.data_start()
    }

    /// How many data blocks may be taken.
    fn reusable(&self) -> u32
        ensures { result ≡ length (reusable_blocks (books_of self.now)) }
    {
        self.area() - self.live - self.held
    }

    /// The last point.
    fn last(&self) -> u64
        ensures { result ≡ (books_of self.now).point }
    {
        (self.history.points() - 1) as u64
    }

    /// Takes one block.
    fn take_one(&mut self, b: u32)
        requires room { 0 < self.old.takes }
        requires may { IsReusable self.old.geom (clear_in (blocks_of self.old.busy.items)) b }
        ensures books { books_of self.new ≡ after_take (books_of self.old) (b ∷ []) }
        ensures map { IsWithBits self.old.geom (blocks_of self.old.history.now) (blocks_of self.new.history.now) (b ∷ []) true }
        ensures points { self.new.history.points ≡ self.old.history.points }
        ensures ticks { self.new.ticks ≡ self.old.ticks }
    {
        a_set_block_is_free_no_more();
        write_bit(&mut self.history, &self.geom, b, true);
        set(self.busy.as_mut_slice(), b);
        self.roles[bit_block(&self.geom, b) as usize] = Role::Changed;
        self.roles[b as usize] = Role::Bare;
        self.live += 1;
        self.took += 1;
        self.takes -= 1;
    }

    /// Makes a point of the map, and begins an empty transaction.
    ///
    /// # Errors
    /// Out of memory; nothing changed.
    fn end_transaction(&mut self) -> Result<(), NoMemory>
        ensures books { OnOk result (books_of self.new ≡ record (books_of self.old)
            { running = nothing_running; reusable = (books_of self.new).reusable; point = (books_of self.old).point + 1 }) }
        ensures reusable { (b : ℕ) → IsReusable self.old.geom (books_of self.old).reusable b → (books_of self.new).reusable b ≡ true }
        ensures clears { OnOk result ((b : ℕ) → IsData self.old.geom b → (books_of self.new).reusable b ≡ not ((books_of self.old).marked b)) }
        ensures map { self.new.history.now ≡ self.old.history.now }
        ensures points { OnOk result (self.new.history.points ≡ self.old.history.points ++ self.old.history.now ∷ []) }
        ensures err { OnErr result (self.new ≡ self.old) }
        ensures ticks { self.new.ticks ≡ self.old.ticks }
    {
        self.history.make_point()?;
        read_bits(&self.history, &self.geom, self.busy.as_mut_slice());
        forget(self.roles.as_mut_slice());
        self.weight = 0;
        self.held = 0;
        self.took = 0;
        Ok(())
    }
}
