// A row's line of parents: how deep the row lies, the trace that ends at it, and where that enters (document 01, "States and rows"; document
// 02, A.3). All functions here are inner.
#![tactic(auto)]

ghost use Rattle.std.specs.Prelude.{◌≡◌, [], ◌∷◌, ◌++◌, ◌<◌, ◌≤◌, length};
ghost use Rattle.packet.specs.Written.{written};
ghost use Rattle.parent_traces.specs.ParentLines.{line_depth, line_path, line_start, Rooted};

// Inner: the depth of row h, how many rows lie above it.
pub fn depth(parents: &[u16], listed: usize, h: usize) -> usize
    requires rooted { Rooted parents.now listed }
    requires h_lt_listed { h < listed }
    ensures { result ≡ line_depth parents.now h }
{
    let mut above = 0;
    let mut i = h;
    let mut parent = usize::from(parents[i]);
    while parent != i {
        above += 1;
        i = parent;
        parent = usize::from(parents[i]);
    }
    above
}

// Inner: the packet that enters where row h's line of parents starts.
pub fn entering(packets: &[u16], parents: &[u16], listed: usize, h: usize) -> u16
    requires rooted { Rooted parents.now listed }
    requires listed_in_bounds { listed ≤ length packets.now }
    requires h_lt_listed { h < listed }
    ensures { result ≡ line_start packets.now parents.now h }
{
    let mut i = h;
    let mut parent = usize::from(parents[i]);
    while parent != i {
        i = parent;
        parent = usize::from(parents[i]);
    }
    packets[i]
}

// Inner: writes the trace that ends at row h with the packet `last`, which the list has room for.
pub fn write_trace(
    packets: &[u16],
    parents: &[u16],
    listed: usize,
    h: usize,
    last: u16,
    trace: &mut [u16],
)
    requires rooted { Rooted parents.now listed }
    requires listed_in_bounds { listed ≤ length packets.now }
    requires h_lt_listed { h < listed }
    requires h_in_bounds { line_depth parents.now h < length trace.old }
    ensures { trace.new ≡ written (line_path packets.now parents.now h ++ (last ∷ [])) trace.old }
{
    let mut k = depth(parents, listed, h);
    trace[k] = last;
    let mut i = h;
    let mut parent = usize::from(parents[i]);
    while parent != i {
        k -= 1;
        trace[k] = packets[i];
        i = parent;
        parent = usize::from(parents[i]);
    }
}
