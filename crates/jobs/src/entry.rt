// The entries (document 01, "Job file and certificate"; document 02, M-100): whether one stands at the front of some bytes, its size, and one taken
// out at its place.
ghost use Rattle.std.specs.Prelude.{◌≡◌, true, ◌+◌, ◌≤◌, length, drop};
ghost use Rattle.jobs.specs.Format.{behind_mask};
ghost use Rattle.jobs.specs.Check.{words_in, size_in, mask_in, asked_in, good_entry, placed_in};

use crate::{Cursor, EntryAt, Header, field_size};
use masks::{is_good_mask, mask_of};
use packing::join;
use questions::question::{Question, ask};
use slices::element_or;
use used_fields::are_unused_zero;

// Whether an entry stands at the front of some bytes: not cut short, and keeping the rules.
#[tactic(auto, using(crate::proofs::GoodEntry::too_short, crate::proofs::GoodEntry::too_many, crate::proofs::GoodEntry::cut_short, crate::proofs::GoodEntry::of_its_fields, crate::proofs::Sizes::field_size_is))]
pub fn is_good_entry(header: Header, front: &[u8]) -> bool
    ensures { result ≡ good_entry header front.now }
{
    let version = header.version;
    if front.len() < field_size(version)
        || 140 < words_in(version, front)
        || front.len() < size_in(version, front)
    {
        return false;
    }
    let q = question_in(header, front);
    q.kind <= 4 && are_unused_zero(q) && is_good_mask(version, q.kind, mask_in(version, front))
}

// Its size in bytes. The version and the bytes stay apart here and below: callers have them apart, and a struct would be made in each function only to
// be taken apart again.
#[tactic(auto, using(crate::proofs::Sizes::field_bounds))]
pub fn size_in(version: u16, front: &[u8]) -> usize
    ensures { result ≡ size_in version front.now }
{
    field_size(version) + 2 * words_in(version, front) as usize
}

// Where the mask stands since version 2: behind the value.
const MASK_PLACE: usize = 4;

// Where device, seed and the number of words stand.
#[tactic(auto, using(crate::proofs::Sizes::behind_old, crate::proofs::Sizes::behind_new))]
fn behind_mask(version: u16) -> usize
    ensures { result ≡ behind_mask version }
{
    if version < 2 {
        MASK_PLACE
    } else {
        MASK_PLACE + 2
    }
}

// How many words an entry has.
#[tactic(auto, using(crate::proofs::Sizes::behind_bounds))]
fn words_in(version: u16, front: &[u8]) -> u16
    ensures { result ≡ words_in version front.now }
{
    let behind = behind_mask(version);
    join(
        element_or(front, behind + 2, 0),
        element_or(front, behind + 3, 0),
    )
}

// The mask that stands there, or that goes without saying.
fn mask_in(version: u16, front: &[u8]) -> u16
    ensures { result ≡ mask_in version front.now }
{
    let said = join(
        element_or(front, MASK_PLACE, 0),
        element_or(front, MASK_PLACE + 1, 0),
    );
    mask_of(version, element_or(front, 0, 0), said)
}

fn question_in(header: Header, front: &[u8]) -> Question
    requires { behind_mask header.version + 4 ≤ length front.now }
    ensures { result ≡ asked_in header front.now }
{
    let kind = front[0];
    let reg = front[1];
    let value = join(front[2], front[3]);
    let behind = behind_mask(header.version);
    let device = front[behind];
    let seed = front[behind + 1];
    ask(kind, header.n, header.alive, reg, value, device, seed)
}

// An entry that is known to stand at a place.
#[tactic(auto, using(crate::proofs::GoodEntry::good, crate::proofs::GoodEntry::placed_is, crate::proofs::Sizes::field_size_is, ground::proofs::Lists::part_to_end))]
pub(crate) fn entry_known_at(header: Header, file: &[u8], at: usize) -> (EntryAt, Cursor)
    requires { (at ≤ length file.now) × (good_entry header (drop at file.now) ≡ true) }
    ensures { result ≡ placed_in header at (drop at file.now) }
{
    let words = words_in(header.version, &file[at..]) as usize;
    let question = question_in(header, &file[at..]);
    let mask = mask_in(header.version, &file[at..]);
    let start = at + field_size(header.version);
    (
        EntryAt {
            question,
            mask,
            start,
            words,
        },
        Cursor {
            at: start + 2 * words,
        },
    )
}
