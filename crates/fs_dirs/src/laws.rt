//! Laws of what calls alter of a draft and of directories with other slots, each a function that changes
//! nothing. They are for callers that make several calls on one draft.

ghost use Rattle.std.specs.Prelude.{ℕ, ◌+◌, ◌*◌, ◌≤◌, ◌++◌, min, List, [], length};
ghost use Rattle.base_types.specs.declared.layout.Layout.{Layout};
ghost use Rattle.layout_geometry.specs.Geometry.{Geometry, bitmap_blocks};
ghost use Rattle.layout_bytes.specs.declared.slot.Slot.{Slot};
ghost use Rattle.crash_stands.specs.Files.{Files};
ghost use Rattle.crash_stands.specs.Inodes.{AreInodesOf, inodes_of};
ghost use Rattle.fs_files.specs.Calls.{SetsNode};
ghost use Rattle.fs_files.specs.Drafts.{DraftState, ChangesSome, nothing_drafted};
ghost use Rattle.fs_files.specs.Finish.{ChangesOnly, price};
ghost use Rattle.fs_dirs.specs.Changing.{Alters, IsWithSlots};

/// What calls alter of one draft adds up. A call that changes a node alters one block and frees the node's.
/// What is altered of an empty draft bounds its price.
pub fn alterations_add_up()
    ensures both { (a b frees more : ℕ) (takes others : List ℕ) (c d e : DraftState) → Alters a takes frees c d → Alters b others more d e
        → Alters (a + b) (takes ++ others) (frees + more) c e }
    ensures node { (g : Geometry) (number : ℕ) (gone : List ℕ) (d e : DraftState) → SetsNode g number gone d e → ChangesSome e → Alters 1 [] (length gone) d e }
    ensures price { (g : Geometry) (most frees : ℕ) (takes : List ℕ) (e : DraftState) → Alters most takes frees nothing_drafted e
        → (bs : List ℕ) × ChangesOnly bs e × (price g bs e ≤ 25 * (most + (min (length takes) (bitmap_blocks g) + min frees (bitmap_blocks g)))) }
{}

/// Where one directory has other slots and no other node changed, each node in use still reads as an inode.
pub fn directories_are_read()
    ensures { (l : Layout) (old new : Files) (k : ℕ) (slots : List Slot) → IsWithSlots l old new k slots → AreInodesOf l old (inodes_of l old)
        → AreInodesOf l new (inodes_of l new) }
{}
