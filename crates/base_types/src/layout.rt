//! The layouts of a disk, their numbers, and the laws of these. What the numbers are is defined in
//! specs/Layouts; what nodes and slots say is known by the crates of their bytes.

ghost use Rattle.std.specs.Prelude.{◌≡◌, ◌<◌, ◌≤◌, ◌+◌, ◌-◌, ◌*◌, ◌/◌, ◌%◌, ◌^◌, ◌⊎◌, ℕ};
ghost use Rattle.base_types.specs.declared.layout.Layout.{Layout as LayoutValue};
ghost use Rattle.base_types.specs.Layouts.{layout_number, layout_of, node_size, nodes_in_block, most_runs, slot_size, slots_in_block, longest_name};
ghost use Rattle.base_types.specs.Layouts.{table_blocks, nodes_before, node_block, node_rank, rank_byte, node_byte};
ghost use Rattle.base_types.specs.Layouts.{slot_block, slot_byte, slot_place, slots_before};
ghost use Rattle.base_types.specs.Layouts.{directory_blocks, directory_bytes, slots_held, content_size};

/// How the nodes and slots of a disk are laid out, and so how long a name may be and how many runs a node
/// may have.
#[derive(Clone, Copy, Debug, PartialEq, Eq)]
pub enum Layout {
    /// Short names and small nodes.
    One,
    /// Names of up to 255 bytes, and nodes with more runs.
    Two,
}

/// How the numbers of a layout go together.
pub fn the_numbers_of_a_layout_go_together()
    ensures node { (l : LayoutValue) → node_size l ≡ 32 + 8 * most_runs l }
    ensures nodes { (l : LayoutValue) → 0 < nodes_in_block l }
    ensures runs { (l : LayoutValue) → most_runs l ≤ 60 }
    ensures slot { (l : LayoutValue) → 5 + longest_name l ≤ slot_size l }
    ensures slots { (l : LayoutValue) → 0 < slots_in_block l }
    ensures name { (l : LayoutValue) → 0 < longest_name l }
    ensures short { (l : LayoutValue) → longest_name l ≤ 255 }
{}

/// Where nodes lie in the blocks of their table.
pub fn nodes_lie_in_their_blocks()
    ensures within { (l : LayoutValue) (k : ℕ) → node_byte l k + node_size l ≤ 1024 }
    ensures table { (l : LayoutValue) (i k : ℕ) → i % 4 ≡ 0 → 1 ≤ k → k ≤ i → node_block l k < table_blocks l i }
    ensures apart { (l : LayoutValue) (j k : ℕ) → 1 ≤ j → j < k
        → (node_block l j < node_block l k) ⊎ ((node_block l j ≡ node_block l k) × (node_byte l j + node_size l ≤ node_byte l k)) }
    ensures number { (l : LayoutValue) (k : ℕ) → 1 ≤ k → nodes_before l (node_block l k) + node_rank l k + 1 ≡ k }
    ensures byte { (l : LayoutValue) (k : ℕ) → node_byte l k ≡ rank_byte l (node_rank l k) }
    ensures whole { (l : LayoutValue) (i : ℕ) → i % 4 ≡ 0 → nodes_before l (table_blocks l i) ≡ i }
{}

/// Where slots lie in the blocks of their directory.
pub fn slots_lie_in_their_blocks()
    ensures within { (l : LayoutValue) (i : ℕ) → slot_byte l i + slot_size l ≤ 1024 }
    ensures place { (l : LayoutValue) (i : ℕ) → slot_place l i ≡ 1024 * slot_block l i + slot_byte l i }
    ensures apart { (l : LayoutValue) (i k : ℕ) → i < k → slot_place l i + slot_size l ≤ slot_place l k }
    ensures last { (l : LayoutValue) (e : ℕ) → directory_bytes l (e + 1) ≡ slot_place l e + slot_size l }
    ensures none { (l : LayoutValue) → directory_bytes l 0 ≡ 0 }
    ensures blocks { (l : LayoutValue) (e : ℕ) → (directory_bytes l e + 1023) / 1024 ≡ directory_blocks l e }
    ensures count { (l : LayoutValue) (e : ℕ) → slots_held l (directory_bytes l e) ≡ e }
    ensures grows { (l : LayoutValue) (e : ℕ) → directory_blocks l (e + 1) - directory_blocks l e ≤ 1 }
{}

impl Layout {
    /// The number by which it is named: 1 or 2.
    pub fn number(self) -> u32
        ensures value { result ≡ layout_number self }
        ensures few { result ≤ 2 }
    {
        match self {
            Layout::One => 1,
            Layout::Two => 2,
        }
    }

    /// The layout of a number: layout 2 by its own, and layout 1 by every other.
    pub fn of(number: u32) -> Layout
        ensures { result ≡ layout_of number }
    {
        if number == 2 {
            return Layout::Two;
        }
        Layout::One
    }

    /// The bytes of a node.
    pub fn node_length(self) -> usize
        ensures { result ≡ node_size self }
    {
        match self {
            Layout::One => 256,
            Layout::Two => 512,
        }
    }

    /// How many nodes a block of the node table has.
    pub fn nodes_in_block(self) -> u32
        ensures { result ≡ nodes_in_block self }
    {
        match self {
            Layout::One => 4,
            Layout::Two => 2,
        }
    }

    /// The most runs of a node.
    pub fn most_runs(self) -> usize
        ensures { result ≡ most_runs self }
    {
        match self {
            Layout::One => 28,
            Layout::Two => 60,
        }
    }

    /// The bytes of a directory slot.
    pub fn slot_length(self) -> usize
        ensures { result ≡ slot_size self }
    {
        match self {
            Layout::One => 64,
            Layout::Two => 264,
        }
    }

    /// How many slots a block of a directory has.
    pub fn slots_in_block(self) -> u32
        ensures { result ≡ slots_in_block self }
    {
        match self {
            Layout::One => 16,
            Layout::Two => 3,
        }
    }

    /// The most bytes of a name in a directory.
    pub fn longest_name(self) -> usize
        ensures { result ≡ longest_name self }
    {
        match self {
            Layout::One => 59,
            Layout::Two => 255,
        }
    }

    /// How many blocks a table of so many nodes has.
    pub fn table_blocks(self, nodes: u32) -> u32
        ensures { result ≡ table_blocks self nodes }
    {
        match self {
            Layout::One => nodes / 4,
            Layout::Two => nodes / 2,
        }
    }

    /// How many nodes the first so many blocks of a node table have.
    pub fn nodes_before(self, block: u32) -> u32
        requires { nodes_before self block < 2 ^ 32 }
        ensures { result ≡ nodes_before self block }
    {
        match self {
            Layout::One => 4 * block,
            Layout::Two => 2 * block,
        }
    }

    /// The block of the node table in which a node is.
    pub fn node_block(self, number: u32) -> u32
        requires { 1 ≤ number }
        ensures { result ≡ node_block self number }
    {
        match self {
            Layout::One => (number - 1) / 4,
            Layout::Two => (number - 1) / 2,
        }
    }

    /// Its place among the nodes of that block, from 0 on.
    pub fn node_rank(self, number: u32) -> u32
        requires { 1 ≤ number }
        ensures { result ≡ node_rank self number }
    {
        match self {
            Layout::One => (number - 1) % 4,
            Layout::Two => (number - 1) % 2,
        }
    }

    /// The first byte of the node at a place among those of its block.
    pub fn rank_byte(self, rank: u32) -> usize
        ensures { result ≡ rank_byte self rank }
    {
        match self {
            Layout::One => 256 * rank as usize,
            Layout::Two => 512 * rank as usize,
        }
    }

    /// The first byte of a node in its block.
    pub fn node_byte(self, number: u32) -> u32
        requires { 1 ≤ number }
        ensures { result ≡ node_byte self number }
    {
        match self {
            Layout::One => 256 * ((number - 1) % 4),
            Layout::Two => 512 * ((number - 1) % 2),
        }
    }

    /// The block of a directory in which the slot at a place is, from 0 on.
    pub fn slot_block(self, place: u32) -> u32
        ensures { result ≡ slot_block self place }
    {
        match self {
            Layout::One => place / 16,
            Layout::Two => place / 3,
        }
    }

    /// Its first byte there.
    pub fn slot_byte(self, place: u32) -> u32
        ensures { result ≡ slot_byte self place }
    {
        match self {
            Layout::One => 64 * (place % 16),
            Layout::Two => 264 * (place % 3),
        }
    }

    /// Its first byte in the blocks of the directory one behind the other.
    pub fn slot_place(self, place: u32) -> u64
        ensures { result ≡ slot_place self place }
    {
        let place = u64::from(place);
        match self {
            Layout::One => 64 * place,
            Layout::Two => 264 * place + 232 * (place / 3),
        }
    }

    /// How many slots the first so many blocks of a directory have.
    pub fn slots_before(self, block: u32) -> u64
        ensures { result ≡ slots_before self block }
    {
        let block = u64::from(block);
        match self {
            Layout::One => 16 * block,
            Layout::Two => 3 * block,
        }
    }

    /// How many blocks a directory of so many slots has.
    pub fn directory_blocks(self, slots: u64) -> u64
        ensures { result ≡ directory_blocks self slots }
    {
        match self {
            Layout::One => slots.div_ceil(16),
            Layout::Two => slots.div_ceil(3),
        }
    }

    /// How many of their bytes so many slots need: up to the end of the last one.
    pub fn directory_bytes(self, slots: u64) -> u64
        requires { slots ≤ 2 ^ 32 }
        ensures { result ≡ directory_bytes self slots }
    {
        match self {
            Layout::One => 64 * slots,
            Layout::Two => 264 * slots + 232 * (slots.saturating_sub(1) / 3),
        }
    }

    /// How many slots so many bytes hold.
    pub fn slots_held(self, bytes: u64) -> u64
        ensures { result ≡ slots_held self bytes }
    {
        match self {
            Layout::One => bytes / 64,
            Layout::Two => 3 * (bytes / 1024) + (bytes % 1024 + 263) / 264,
        }
    }

    /// How many bytes a directory has, by what its size field says.
    pub fn content_size(self, size: u64) -> u64
        requires { size ≤ 2 ^ 38 }
        ensures { result ≡ content_size self size }
    {
        self.directory_bytes(size / 64)
    }
}
