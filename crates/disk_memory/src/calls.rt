//! Which calls of a disk in memory are to fail: by their kind, and by how many of that kind came by
//! then. What a call that fails leaves behind isn't described here.

ghost use Rattle.std.specs.Prelude.{◌≡◌, ◌&&◌, ◌==◌};
ghost use Rattle.disk_memory.specs.MemDisk.{same_call, is_listed};

/// A kind of call that may fail.
#[derive(Clone, Copy)]
pub enum DiskCall {
    Read,
    Write,
    Poll,
    Wait,
}

/// A call that is to fail.
#[derive(Clone, Copy)]
pub struct Fail {
    /// The kind of call.
    pub kind: DiskCall,
    /// Which call of that kind since the disk began, counted from 1; 0 is none. Those that failed count too.
    pub nth: u64,
}

/// Whether this call, counted from 1 among those of its kind, is in the list.
pub(crate) fn is_listed(fails: &[Fail], kind: DiskCall, nth: u64) -> bool
    ensures { result ≡ is_listed kind nth fails.now }
{
    fails.iter().any(|fail| is_call(fail, kind, nth))
}

fn is_call(fail: &Fail, kind: DiskCall, nth: u64) -> bool
    ensures { result ≡ (same_call fail.now.kind kind && (fail.now.nth == nth)) }
{
    fail.kind == kind && fail.nth == nth
}
