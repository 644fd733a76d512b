//! Which calls of a bay in memory are to fail: by their kind, and by how many of that kind came by then.

ghost use Rattle.std.specs.Prelude.{◌≡◌, ◌&&◌, ◌==◌};
ghost use Rattle.std.specs.List.{list_any};
ghost use Rattle.disk_memory_bay.specs.MemBay.{same_call};

/// A kind of call that may fail.
#[derive(Clone, Copy)]
pub enum BayCall {
    Make,
    Open,
    Close,
}

/// A call that is to fail.
#[derive(Clone, Copy)]
pub struct BayFail {
    /// The kind of call.
    pub kind: BayCall,
    /// Which call of that kind since the bay began, counted from 1; 0 is none. Those that failed count too.
    pub nth: u64,
}

/// Whether this call, counted from 1 among those of its kind, is in the list.
pub(crate) fn is_listed(fails: &[BayFail], kind: BayCall, nth: u64) -> bool
    ensures { result ≡ list_any (λ f. same_call f.kind kind && (f.nth == nth)) fails.now }
{
    fails.iter().any(|fail| is_call(fail, kind, nth))
}

fn is_call(fail: &BayFail, kind: BayCall, nth: u64) -> bool
    ensures { result ≡ (same_call fail.now.kind kind && (fail.now.nth == nth)) }
{
    fail.kind == kind && fail.nth == nth
}
