//! Whether an extraction and a SPEF file have the same nets.

ghost use Rattle.std.specs.Prelude.{◌≡◌, ◌<◌, ◌↔◌, ◌++◌, IfOk, IsTrue, MatchOption, codes, length, slice_get};
ghost use Rattle.std.specs.Fmt.{decimal};
ghost use Rattle.std.specs.Option.{option_copied};
ghost use Rattle.rc_spef.specs.Sameness.{name_text as name_text_of};
ghost use Rattle.rc_cli.specs.Verdict.{named_nets, first_difference as first_difference_of, IsFirstApart, net_at, name_at as name_at_of, verdict as verdict_of, IsVerdict, verdict_text, kind_of};

use itoa::Buffer;
use rc_fixed::{NoMemory, Text};
use rc_spef::{Spef, same_net};
use std::alloc::Global;

/// Whether the nets of an extraction and of a SPEF file are the same.
#[derive(Clone, Copy, Debug, PartialEq, Eq)]
pub enum Verdict {
    /// They are the same.
    Same,
    /// Some net differs.
    Differs,
}

/// A verdict, and the text that tells it.
#[derive(Debug, Drop)]
pub struct Told {
    pub verdict: Verdict,
    pub text: Text,
}

/// Whether the nets of a position are the same.
fn agree(extraction: &Spef, file: &Spef, place: usize) -> bool
    requires extraction { place < length extraction.now.nets }
    requires file { place < length file.now.nets }
    ensures { IsTrue result ↔ (slice_get (named_nets extraction.now) place ≡ slice_get (named_nets file.now) place) }
{
    same_net(extraction, place, file, place)
}

/// The first position whose nets differ, or at which only one of the values has a net. None exactly where all nets are the
/// same.
pub fn first_difference(extraction: &Spef, file: &Spef) -> Option<usize>
    ensures is { result ≡ first_difference_of extraction.now file.now }
    ensures apart { MatchOption result (named_nets extraction.now ≡ named_nets file.now) (λ place. IsFirstApart (named_nets extraction.now) (named_nets file.now) place) }
{
    let ours = extraction.nets.items().len();
    let theirs = file.nets.items().len();
    let both = ours.min(theirs);
    for place in 0..both {
        if !agree(extraction, file, place) {
            return Some(place);
        }
    }
    if ours == theirs { None } else { Some(both) }
}

/// The text of a name, which is told by its place from 1. No bytes where there is none.
fn name_text(names: &[Text], place: u32) -> &[u8]
    ensures { result.now ≡ name_text_of names.now place }
{
    let at = place.saturating_sub(1) as usize;
    match names.get(at) {
        Some(name) => name.bytes(),
        None => &[],
    }
}

/// The name of the net of a position.
fn net_name(spef: &Spef, place: usize) -> Option<&[u8]>
    ensures { option_copied result ≡ net_at spef.now place }
{
    match spef.nets.items().get(place) {
        Some(net) => Some(name_text(spef.names.items(), net.name)),
        None => None,
    }
}

/// The name of the net of a position in the extraction, or in the file where the extraction has no net there.
fn name_at<'a>(extraction: &'a Spef, file: &'a Spef, place: usize) -> &'a [u8]
    ensures { result.now ≡ name_at_of extraction.now file.now place }
{
    if let Some(name) = net_name(extraction, place) {
        return name;
    }
    match net_name(file, place) {
        Some(name) => name,
        None => &[],
    }
}

/// `same N` for N nets.
fn same_text(alloc: Global, count: usize) -> Result<Text, NoMemory>
    ensures { IfOk result (λ text. text ≡ codes "same " ++ decimal count ++ codes "\n") }
{
    let mut text = Vec::from_slice(alloc, b"same ")?;
    let mut digits = Buffer::new();
    text.extend_from_slice(digits.format(count).as_bytes())?;
    text.push(b'\n')?;
    Text::from_vec(alloc, text)
}

/// `differs NAME`.
fn differs_text(alloc: Global, name: &[u8]) -> Result<Text, NoMemory>
    ensures { IfOk result (λ text. text ≡ codes "differs " ++ name.now ++ codes "\n") }
{
    let mut text = Vec::from_slice(alloc, b"differs ")?;
    text.extend_from_slice(name)?;
    text.push(b'\n')?;
    Text::from_vec(alloc, text)
}

/// The verdict on an extraction and a file, with its text: `same N` for N nets, or `differs NAME` with the name of the first
/// net that differs, which is that of the extraction, or of the file where the extraction has no net there.
///
/// # Errors
///
/// `NoMemory` for want of memory.
#[tactic(auto, using(crate::proofs::Differences::means))]
pub fn verify(alloc: Global, extraction: &Spef, file: &Spef) -> Result<Told, NoMemory>
    ensures text { IfOk result (λ told. told.text ≡ verdict_text extraction.now file.now) }
    ensures verdict { IfOk result (λ told. told.verdict ≡ kind_of (verdict_of extraction.now file.now)) }
    ensures means { IsVerdict extraction.now file.now (verdict_of extraction.now file.now) }
{
    let Some(place) = first_difference(extraction, file) else {
        let text = same_text(alloc, extraction.nets.items().len())?;
        return Ok(Told {
            verdict: Verdict::Same,
            text,
        });
    };
    let text = differs_text(alloc, name_at(extraction, file, place))?;
    Ok(Told {
        verdict: Verdict::Differs,
        text,
    })
}
