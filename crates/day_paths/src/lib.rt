// The path of a file that a day file names: beside the day file, where the name is no path from the root.
#![tactic(auto)]

ghost use Rattle.std.specs.Prelude.{◌≡◌, ◌++◌, ◌+◌, ◌≤◌, length, drop};
ghost use Rattle.day_paths.specs.Paths.{folder_length, kept_of, placed_beside};

// The path of the file `name` that the day file at the path `day` names, put at the front of `out`; answers how long it is.
// Where it does not fit nothing is put, and the answer is 0.
pub fn beside(day: &[u8], name: &[u8], out: &mut [u8]) -> usize
    ensures { (result, out.new) ≡ placed_beside day.now name.now out.old }
{
    let kept = kept_of(day, name);
    if out.len() < kept || out.len() - kept < name.len() {
        return 0;
    }
    put_both(&day[..kept], name, out)
}

// Two texts put one behind the other at the front of a buffer; answers how long they are.
fn put_both(first: &[u8], second: &[u8], out: &mut [u8]) -> usize
    requires { length first.now + length second.now ≤ length out.old }
    ensures long { result ≡ length first.now + length second.now }
    ensures put { out.new ≡ first.now ++ (second.now ++ drop (length first.now + length second.now) out.old) }
{
    let behind = first.len();
    let end = behind + second.len();
    out[..behind].copy_from_slice(first);
    out[behind..end].copy_from_slice(second);
    end
}

// How many bytes of the day file's path stand before the name: none where the name is a path from the root.
fn kept_of(day: &[u8], name: &[u8]) -> usize
    ensures { result ≡ kept_of day.now name.now }
{
    if text::starts_with(name, b'/') {
        0
    } else {
        folder_length(day)
    }
}

// How many bytes a path has up to its last `/` and with it.
fn folder_length(path: &[u8]) -> usize
    ensures { result ≡ folder_length path.now }
{
    for last in (0..path.len()).rev() {
        if path[last] == b'/' {
            return last + 1;
        }
    }
    0
}
