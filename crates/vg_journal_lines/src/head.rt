//! The lines before the entries.

ghost use Rattle.std.specs.Prelude.{◌≡◌, ◌+◌, ◌&&◌, map, if◌then◌else◌, bytes_eq, codes, None};
ghost use Rattle.vg_line_words.specs.Words.{number_of};
ghost use Rattle.vg_act_lines.specs.Read.{both};
ghost use Rattle.vg_journal_lines.specs.Versions.{limits_of, queues_of};
ghost use Rattle.vg_journal_lines.specs.Read.{clients_of, display_of, feature_of, from_one, is_host, is_queues, is_this, memory_of, title_of, version_in, without_of};

use crate::numbers::{from_one, is_this};
use vg_limits::{version_1, version_2};
use vg_line_words::short_number;
use vg_script_words::is;

/// A version of the journal.
#[derive(Clone, Copy)]
pub enum Version {
    One,
    Two,
}

impl Version {
    /// The sizes of the control queue and of the cursor queue that go with it.
    pub fn queues(self) -> (u16, u16)
        ensures { result ≡ queues_of self }
    {
        match self {
            Version::One => (64, 16),
            Version::Two => (256, 64),
        }
    }

    /// The most pixels in a row of a display.
    fn most_width(self) -> u32
        ensures { result ≡ (limits_of self).width }
    {
        match self {
            Version::One => version_1::MOST_WIDTH,
            Version::Two => version_2::MOST_WIDTH,
        }
    }

    /// The most rows of a display.
    fn most_height(self) -> u32
        ensures { result ≡ (limits_of self).height }
    {
        match self {
            Version::One => version_1::MOST_HEIGHT,
            Version::Two => version_2::MOST_HEIGHT,
        }
    }

    /// The most clients.
    fn most_clients(self) -> u32
        ensures { result ≡ (limits_of self).clients }
    {
        match self {
            Version::One => version_1::MOST_CLIENTS,
            Version::Two => version_2::MOST_CLIENTS,
        }
    }
}

/// A feature that a script can leave out.
#[derive(Clone, Copy)]
pub enum Feature {
    Edid,
    Uuid,
    Blob,
    /// Contexts and their timelines.
    Context,
}

/// The version in the words of the first line: the format and its version.
#[tactic(auto, unfolding(crate::specs::Read::title_of))]
pub fn title_of(words: &[&[u8]]) -> Option<Version>
    ensures { result ≡ title_of (map (λ word. word.now) words.now) }
{
    match words {
        &[name, version] => title(name, version),
        _ => None,
    }
}

fn title(name: &[u8], version: &[u8]) -> Option<Version>
    ensures { result ≡ (if bytes_eq name.now (codes "vgpu-journal") then version_in version.now else None) }
{
    if !is(name, b"vgpu-journal") {
        return None;
    }
    if is(version, b"1") {
        Some(Version::One)
    } else if is(version, b"2") {
        Some(Version::Two)
    } else {
        None
    }
}

/// `display S W H`, where S is this number: width and height in pixels, within the version's limits.
#[tactic(auto, unfolding(crate::specs::Read::display_of))]
pub fn display_of(version: Version, n: u64, words: &[&[u8]]) -> Option<(u32, u32)>
    ensures { result ≡ display_of (limits_of version) n (map (λ word. word.now) words.now) }
{
    match words {
        &[word, number, width, height] => display(version, n, word, number, width, height),
        _ => None,
    }
}

fn display(
    version: Version,
    n: u64,
    word: &[u8],
    number: &[u8],
    width: &[u8],
    height: &[u8],
) -> Option<(u32, u32)>
    ensures { result ≡ (if bytes_eq word.now (codes "display") && is_this n number.now
        then both (from_one ((limits_of version).width + 1) width.now) (from_one ((limits_of version).height + 1) height.now) else None) }
{
    if !is(word, b"display") || !is_this(n, number) {
        return None;
    }
    Some((
        from_one(width, u64::from(version.most_width()) + 1)?,
        from_one(height, u64::from(version.most_height()) + 1)?,
    ))
}

/// `memory P`: how many pages there are.
#[tactic(auto, unfolding(crate::specs::Read::memory_of))]
pub fn memory_of(words: &[&[u8]]) -> Option<u32>
    ensures { result ≡ memory_of (map (λ word. word.now) words.now) }
{
    match words {
        &[word, pages] => memory(word, pages),
        _ => None,
    }
}

fn memory(word: &[u8], pages: &[u8]) -> Option<u32>
    ensures { result ≡ (if bytes_eq word.now (codes "memory") then from_one 16385 pages.now else None) }
{
    if is(word, b"memory") {
        from_one(pages, 16_385)
    } else {
        None
    }
}

/// Whether some words are those of the queues' sizes, `queues 256 64`.
#[tactic(auto, unfolding(crate::specs::Read::is_queues))]
pub fn is_queues(words: &[&[u8]]) -> bool
    ensures { result ≡ is_queues (map (λ word. word.now) words.now) }
{
    match words {
        &[word, control, cursor] => queues(word, control, cursor),
        _ => false,
    }
}

fn queues(word: &[u8], control: &[u8], cursor: &[u8]) -> bool
    ensures { result ≡ (bytes_eq word.now (codes "queues") && bytes_eq control.now (codes "256") && bytes_eq cursor.now (codes "64")) }
{
    is(word, b"queues") && is(control, b"256") && is(cursor, b"64")
}

/// `without F`: the feature that is left out.
#[tactic(auto, unfolding(crate::specs::Read::without_of))]
pub fn without_of(words: &[&[u8]]) -> Option<Feature>
    ensures { result ≡ without_of (map (λ word. word.now) words.now) }
{
    match words {
        &[word, name] => without(word, name),
        _ => None,
    }
}

fn without(word: &[u8], name: &[u8]) -> Option<Feature>
    ensures { result ≡ (if bytes_eq word.now (codes "without") then feature_of name.now else None) }
{
    if is(word, b"without") {
        feature_of(name)
    } else {
        None
    }
}

fn feature_of(name: &[u8]) -> Option<Feature>
    ensures { result ≡ feature_of name.now }
{
    if is(name, b"edid") {
        Some(Feature::Edid)
    } else if is(name, b"uuid") {
        Some(Feature::Uuid)
    } else if is(name, b"blob") {
        Some(Feature::Blob)
    } else if is(name, b"context") {
        Some(Feature::Context)
    } else {
        None
    }
}

/// `clients C`: how many clients there are, within the version's limits.
#[tactic(auto, unfolding(crate::specs::Read::clients_of))]
pub fn clients_of(version: Version, words: &[&[u8]]) -> Option<u32>
    ensures { result ≡ clients_of (limits_of version) (map (λ word. word.now) words.now) }
{
    match words {
        &[word, clients] => clients_in(version, word, clients),
        _ => None,
    }
}

fn clients_in(version: Version, word: &[u8], clients: &[u8]) -> Option<u32>
    ensures { result ≡ (if bytes_eq word.now (codes "clients") then number_of ((limits_of version).clients + 1) clients.now else None) }
{
    if is(word, b"clients") {
        short_number(clients, u64::from(version.most_clients()) + 1)
    } else {
        None
    }
}

/// Whether some words are the line that says that there is a host.
#[tactic(auto, unfolding(crate::specs::Read::is_host))]
pub fn is_host(words: &[&[u8]]) -> bool
    ensures { result ≡ is_host (map (λ word. word.now) words.now) }
{
    match words {
        &[word] => is(word, b"host"),
        _ => false,
    }
}
