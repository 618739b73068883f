//! Which numbers make a compressed level.

ghost use Rattle.std.specs.Prelude.{◌≡◌, ◌<◌, ◌^◌, true, length};
ghost use Rattle.std.specs.List.{list_all};
ghost use Rattle.dt_level.specs.Segments.{are_parts, ascends, cuts_whole, never_falls, segments};

/// Whether these numbers make a compressed level.
pub(crate) fn are_parts(pos: &[u32], crd: &[u32]) -> bool
    ensures parts { result ≡ are_parts pos.now crd.now }
    ensures few { result ≡ true → length crd.now < 2 ^ 32 }
{
    cuts_whole(pos, crd.len()) && segments_ascend(pos, crd)
}

/// Whether `pos` cuts a list of `count` numbers whole.
fn cuts_whole(pos: &[u32], count: usize) -> bool
    ensures cuts { result ≡ cuts_whole pos.now count }
    ensures few { result ≡ true → count < 2 ^ 32 }
{
    if pos.is_empty() {
        return false;
    }
    pos[0] == 0 && pos[pos.len() - 1] as usize == count && never_falls(pos)
}

fn never_falls(numbers: &[u32]) -> bool
    ensures { result ≡ never_falls numbers.now }
{
    let mut rest = numbers;
    while rest.len() > 1 {
        if rest[1] < rest[0] {
            return false;
        }
        rest = &rest[1..];
    }
    true
}

fn ascends(numbers: &[u32]) -> bool
    ensures { result ≡ ascends numbers.now }
{
    let mut rest = numbers;
    while rest.len() > 1 {
        if rest[1] <= rest[0] {
            return false;
        }
        rest = &rest[1..];
    }
    true
}

/// Whether the coordinates of each segment ascend.
fn segments_ascend(pos: &[u32], crd: &[u32]) -> bool
    requires { cuts_whole pos.now (length crd.now) ≡ true }
    ensures { result ≡ list_all ascends (segments pos.now crd.now) }
{
    let mut rest = pos;
    while rest.len() > 1 {
        if !ascends(&crd[rest[0] as usize..rest[1] as usize]) {
            return false;
        }
        rest = &rest[1..];
    }
    true
}
