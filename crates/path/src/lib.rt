// Paths: the full path of a call, its directory part and its last name, and the pieces of a directory part.
// Everything is tested before the first byte is written, so a refusal leaves the buffer as it was.
#![tactic(auto)]

ghost use Rattle.std.specs.Prelude.{◌≡◌, ◌≢◌, false, not, ◌||◌, [], ◌∷◌, ◌++◌, ℕ, ◌+◌, ◌≤◌, ◌<◌, ltb, length, slice_index};
ghost use Rattle.std.specs.Prelude.{EachIndex, MatchOption, IfSome, option_copied};
ghost use Rattle.wire.specs.Be.{splice};
ghost use Rattle.wire.specs.Pick.{pick, same};
ghost use Rattle.text.specs.Text.{is_text};
ghost use Rattle.path.specs.Path.{slash, path_limit, starts_slash, ends_slash, trimmed, last_name, dir_part, split, unled, steps};
ghost use Rattle.path.specs.Post.{PathIs, RealIs, pieces};

use limits::Refusal;

// The longest full path.
pub const PATH_LIMIT: usize = 1024;

const SLASH: u8 = b'/';

// The parts of a full path: its directory part and its last name.
#[derive(Clone, Copy)]
pub struct Parts<'a> {
    pub dir: &'a [u8],
    pub name: &'a [u8],
}

fn starts_slash(s: &[u8]) -> bool
    ensures { result ≡ starts_slash s.now }
{
    s.starts_with(b"/")
}

// What goes between a working directory and a path: a slash, but nothing where it ends in one.
fn gap(cwd: &[u8]) -> &'static [u8]
    ensures value { result.now ≡ pick (ends_slash cwd.now) [] (slash ∷ []) }
    ensures short { length result.now ≤ 1 }
{
    if cwd.ends_with(b"/") { b"" } else { b"/" }
}

// A path that starts with a slash is full as it stands.
fn plain(full: &mut [u8; PATH_LIMIT], path: &[u8]) -> Result<usize, Refusal>
    ensures { PathIs (ltb path_limit (length path.now) || not (is_text path.now))
        path.now full.old full.new result }
{
    let n = path.len();
    if PATH_LIMIT < n || !text::text(path) {
        return Err(Refusal::BadPath);
    }
    wire::copy_all(&mut full[..n], path);
    Ok(n)
}

// The working directory, what is between, and the path, one after the other; answers where they end.
fn join(full: &mut [u8; PATH_LIMIT], cwd: &[u8], gap: &[u8], path: &[u8])
    requires { length cwd.now + (length gap.now + length path.now) ≤ path_limit }
    ensures { full.new ≡ splice full.old 0 (cwd.now ++ (gap.now ++ path.now)) }
{
    let (first, rest) = full.split_at_mut(cwd.len());
    wire::copy_all(first, cwd);
    wire::copy_all(&mut rest[..gap.len()], gap);
    wire::copy_all(&mut rest[gap.len()..gap.len() + path.len()], path);
}

// A path that doesn't start with a slash, from the working directory.
fn joined(full: &mut [u8; PATH_LIMIT], cwd: &[u8], path: &[u8]) -> Result<usize, Refusal>
    requires { starts_slash path.now ≡ false }
    ensures { RealIs cwd.now path.now full.old full.new result }
{
    if !starts_slash(cwd) {
        return Err(Refusal::BadPath);
    }
    let gap = gap(cwd);
    let n = cwd.len() + (gap.len() + path.len());
    if PATH_LIMIT < n {
        return Err(Refusal::BadPath);
    }
    if !text::text(cwd) {
        return Err(Refusal::BadPath);
    }
    if !text::text(path) {
        return Err(Refusal::BadPath);
    }
    join(full, cwd, gap, path);
    Ok(n)
}

// The full path of a call goes to the start of `full`; nothing is written where it is refused.
pub fn realpath(full: &mut [u8; PATH_LIMIT], cwd: &[u8], path: &[u8]) -> Result<usize, Refusal>
    ensures { RealIs cwd.now path.now full.old full.new result }
{
    if starts_slash(path) {
        return plain(full, path);
    }
    joined(full, cwd, path)
}

// Where the first slash is.
fn first_slash(s: &[u8]) -> Option<usize>
    ensures { MatchOption result (EachIndex s.now (λ k. slice_index s.now k ≢ slash))
        (λ i. (i < length s.now) × (slice_index s.now i ≡ slash) × ((k : ℕ) → k < i → slice_index s.now k ≢ slash)) }
{
    s.iter().position(|c| *c == SLASH)
}

// Where the last slash is.
fn last_slash(s: &[u8]) -> Option<usize>
    ensures { MatchOption result (EachIndex s.now (λ k. slice_index s.now k ≢ slash))
        (λ i. (i < length s.now) × (slice_index s.now i ≡ slash)
        × ((k : ℕ) → i < k → k < length s.now → slice_index s.now k ≢ slash)) }
{
    s.iter().rposition(|c| *c == SLASH)
}

// Where the first byte that is no slash is.
fn first_other(s: &[u8]) -> Option<usize>
    ensures { MatchOption result (EachIndex s.now (λ k. slice_index s.now k ≡ slash))
        (λ i. (i < length s.now) × (slice_index s.now i ≢ slash) × ((k : ℕ) → k < i → slice_index s.now k ≡ slash)) }
{
    s.iter().position(|c| *c != SLASH)
}

// Where the last byte that is no slash is.
fn last_other(s: &[u8]) -> Option<usize>
    ensures { MatchOption result (EachIndex s.now (λ k. slice_index s.now k ≡ slash))
        (λ i. (i < length s.now) × (slice_index s.now i ≢ slash)
        × ((k : ℕ) → i < k → k < length s.now → slice_index s.now k ≡ slash)) }
{
    s.iter().rposition(|c| *c != SLASH)
}

// A path without the slashes at its end; a slash alone stays (P3).
fn trim(path: &[u8]) -> &[u8]
    ensures value { result.now ≡ trimmed path.now }
    ensures within { length result.now ≤ length path.now }
{
    if path.len() <= 1 {
        return path;
    }
    match last_other(path) {
        Some(last) => &path[..last + 1],
        None => &path[..0],
    }
}

// The parts of a full path. The slash between them is neither's, but one that is the first byte is the directory part's.
pub fn parts_of(full: &[u8]) -> Parts<'_>
    ensures dir_is { result.dir.now ≡ dir_part full.now }
    ensures name_is { result.name.now ≡ last_name full.now }
    ensures dir_in { length result.dir.now ≤ length full.now }
    ensures name_in { length result.name.now ≤ length full.now }
{
    let path = trim(full);
    match last_slash(path) {
        Some(0) => Parts {
            dir: &path[..1],
            name: &path[1..],
        },
        Some(last) => Parts {
            dir: &path[..last],
            name: &path[last + 1..],
        },
        None => Parts {
            dir: &path[..0],
            name: path,
        },
    }
}

// Whether a path is `/`, which is the root.
pub fn is_root(path: &[u8]) -> bool
    ensures { result ≡ same path.now (slash ∷ []) }
{
    path == b"/".as_slice()
}

// A directory part without the slashes in front; nothing where it is the root (P4).
pub fn way(dir: &[u8]) -> Option<&[u8]>
    ensures value { pieces (option_copied result) ≡ steps dir.now }
    ensures within { IfSome result (λ w. length w.now ≤ length dir.now) }
    ensures rest { IfSome result (λ w. w.now ≡ unled dir.now) }
{
    if is_root(dir) {
        return None;
    }
    match first_other(dir) {
        Some(first) => Some(&dir[first..]),
        None => Some(&dir[..0]),
    }
}

// The first piece, up to a slash, and what is behind that slash if there is one.
pub fn first_piece(way: &[u8]) -> (&[u8], Option<&[u8]>)
    ensures value { split way.now ≡ result.0.now ∷ pieces (option_copied result.1) }
    ensures within { length result.0.now ≤ length way.now }
    ensures shorter { IfSome result.1 (λ w. length w.now < length way.now) }
{
    match first_slash(way) {
        Some(end) => (&way[..end], Some(&way[end + 1..])),
        None => (way, None),
    }
}
