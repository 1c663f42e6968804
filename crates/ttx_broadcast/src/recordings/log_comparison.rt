//! Two logs.

ghost use Rattle.std.specs.Bool.{Decides};
ghost use Rattle.ttx_broadcast.specs.Comparing.{IsSameSoFar};

/// Whether two logs are the same as far as both go: one of them begins with the other one.
pub fn is_same_so_far(a: &[u8], b: &[u8]) -> bool
    ensures { Decides result (IsSameSoFar a.now b.now) }
{
    let both = a.len().min(b.len());
    a[..both] == b[..both]
}
