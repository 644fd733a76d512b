//! What directories and files are after bytes of theirs were written or cut. The functions do nothing but
//! call laws.

ghost use Rattle.std.specs.Prelude.{◌≡◌, ◌<◌, ◌≤◌, ◌-◌, ◌++◌, ℕ, List, [], ◌∷◌, length, take, drop, set, slice_get, Some};
ghost use Rattle.base_types.specs.declared.layout.Layout.{Layout};
ghost use Rattle.base_types.specs.Layouts.{longest_name, slot_size, slot_place, directory_bytes, slots_held};
ghost use Rattle.layout_bytes.specs.declared.node.NodeKind.TheVariants.{Dir, File};
ghost use Rattle.layout_bytes.specs.declared.slot.Slot.{Slot};
ghost use Rattle.layout_bytes.specs.Slot.{slot_of, slot_spelling};
ghost use Rattle.layout_directory.specs.Slots.{IsLawful};
ghost use Rattle.layout_directory.specs.Directory.{without_at};
ghost use Rattle.lang_tree.specs.Step.{written, resized};
ghost use Rattle.lang_tree.specs.Tree.{Dir as DirThing, File as FileThing};
ghost use Rattle.crash_stands.specs.Files.{FileNode};
ghost use Rattle.crash_stands.specs.Inodes.{ADir, AFile, inode_of};
ghost use Rattle.fs_inodes.specs.Changes.{new_inode, with_bytes};

use crate::tree::the_slots_are_lawful;

/// A directory's slots lie in its bytes one behind the other, and none has a name that is too long for the layout. A lawful slot written at a place of one is in its
/// stead, and written at the next place it is behind the last one. Where the bytes of the last slot are written over
/// those of another one and then cut off, that one is gone and the last one is in its place.
pub fn slots_follow_the_bytes()
    ensures read { (l : Layout) (file : FileNode) (slots : List Slot) (place : ℕ) (s : Slot) → inode_of l file ≡ Some (ADir slots)
        → slice_get slots place ≡ Some s → slot_of l (take (slot_size l) (drop (slot_place l place) file.bytes)) ≡ Some s }
    ensures short { (l : Layout) (file : FileNode) (slots : List Slot) (place : ℕ) (s : Slot) → inode_of l file ≡ Some (ADir slots)
        → slice_get slots place ≡ Some s → length s.name ≤ longest_name l }
    ensures count { (l : Layout) (file : FileNode) (slots : List Slot) → inode_of l file ≡ Some (ADir slots)
        → directory_bytes l (slots_held l (length file.bytes)) ≡ length file.bytes → length file.bytes ≡ directory_bytes l (length slots) }
    ensures over { (l : Layout) (file : FileNode) (slots : List Slot) (place : ℕ) (s : Slot) → inode_of l file ≡ Some (ADir slots)
        → directory_bytes l (slots_held l (length file.bytes)) ≡ length file.bytes → place < length slots → IsLawful l s
        → inode_of l (with_bytes file (written (slot_place l place) (slot_spelling l s) file.bytes)) ≡ Some (ADir (set slots place s)) }
    ensures behind { (l : Layout) (file : FileNode) (slots : List Slot) (s : Slot) → inode_of l file ≡ Some (ADir slots)
        → directory_bytes l (slots_held l (length file.bytes)) ≡ length file.bytes → IsLawful l s
        → inode_of l (with_bytes file (written (slot_place l (length slots)) (slot_spelling l s) file.bytes)) ≡ Some (ADir (slots ++ s ∷ [])) }
    ensures cut { (l : Layout) (file : FileNode) (slots : List Slot) (n : ℕ) → inode_of l file ≡ Some (ADir slots)
        → directory_bytes l (slots_held l (length file.bytes)) ≡ length file.bytes → n ≤ length slots
        → inode_of l (with_bytes file (resized (directory_bytes l n) file.bytes)) ≡ Some (ADir (take n slots)) }
    ensures out { (l : Layout) (file : FileNode) (slots : List Slot) (place : ℕ) → inode_of l file ≡ Some (ADir slots)
        → directory_bytes l (slots_held l (length file.bytes)) ≡ length file.bytes → place < length slots
        → inode_of l (with_bytes file (resized (directory_bytes l (length slots - 1)) (written (slot_place l place)
        (take (slot_size l) (drop (slot_place l (length slots - 1)) file.bytes)) file.bytes))) ≡ Some (ADir (without_at place slots)) }
{
    the_slots_are_lawful();
}

/// What reads as a file has its links and its bytes, and with others it reads as a file with those. A new
/// node reads as a directory without slots, or as a file without bytes and with one link.
pub fn a_file_reads_as_itself()
    ensures parts { (l : Layout) (file : FileNode) (links : ℕ) (bytes : List ℕ) → inode_of l file ≡ Some (AFile links bytes)
        → (file.links ≡ links) × (file.bytes ≡ bytes) }
    ensures others { (l : Layout) (file : FileNode) (links more : ℕ) (bytes new : List ℕ) → inode_of l file ≡ Some (AFile links bytes)
        → inode_of l (record { kind = file.kind; links = more; bytes = new }) ≡ Some (AFile more new) }
    ensures directory { (l : Layout) → inode_of l (record { kind = Dir; links = 1; bytes = [] }) ≡ Some (new_inode DirThing) }
    ensures file { (l : Layout) → inode_of l (record { kind = File; links = 1; bytes = [] }) ≡ Some (new_inode (FileThing [])) }
{}
