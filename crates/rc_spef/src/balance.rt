//! Whether a value is balanced.

ghost use Rattle.std.specs.Prelude.{◌≡◌, ◌↔◌, ◌++◌, ◌==◌, [], ◌∷◌, true, false, not, map, length, option_to_list, unwrap_or, is_none, Some, None, nat_eq, MatchOption, IfOk, OnOk, IsTrue};
ghost use Rattle.std.specs.List.{list_all, list_any};
ghost use Rattle.std.specs.HashMap.{get};
ghost use Rattle.rc_spef.specs.Balance.{IsBalanced, couplings as couplings_of, coupling_of, is_partner};
ghost use Rattle.rc_spef.specs.BalanceTests.{has_total as has_total_of, all_lead_out as all_lead_out_of, is_single, is_once, has_partner as has_partner_in, pair_up as pair_up_of, are_balanced as are_balanced_of, all_couplings};
ghost use Rattle.rc_spef.specs.Joints.{seen, entry_seen, pair_of, same_joint, cap_leads_out, finds_partner, CountsNames, is_counted_once as is_counted_once_in};

use crate::joint::{Entry, Joint};
use crate::value::{Cap, DNet, Spef};
use indexmap::IndexMap;
use rc_fixed::NoMemory;
use std::alloc::Global;

/// Whether the total of a net is the sum of its capacitances.
#[tactic(auto, unfolding(crate::specs::BalanceTests::has_total))]
fn has_total(net: &DNet) -> bool
    ensures { result ≡ has_total_of net.now }
{
    let total = net.total.0;
    let mut sum: u128 = 0;
    for cap in net.caps.items() {
        match sum.checked_add(cap.value.0) {
            Some(more) => sum = more,
            None => return false,
        }
    }
    total == sum
}

/// Whether each total is the sum of its net's capacitances.
fn have_totals(nets: &[DNet]) -> bool
    ensures { result ≡ list_all has_total_of nets.now }
{
    nets.iter().all(|net| has_total(net))
}

/// Whether a capacitance, where it is a coupling, leads from a net of this name to another.
fn leads_out(name: u32, cap: &Cap) -> bool
    ensures { result ≡ cap_leads_out name cap.now }
{
    match &cap.b {
        None => true,
        Some(to) => cap.a.name == name && to.name != name,
    }
}

/// Whether all couplings among capacitances lead from a net of this name to another.
fn caps_lead_out(name: u32, caps: &[Cap]) -> bool
    ensures { result ≡ list_all (cap_leads_out name) caps.now }
{
    caps.iter().all(|cap| leads_out(name, cap))
}

/// Whether all couplings of a net lead from it to another.
fn all_lead_out(net: &DNet) -> bool
    ensures { result ≡ all_lead_out_of net.now }
{
    caps_lead_out(net.name, net.caps.items())
}

/// Whether all couplings lead from their net to another.
fn lead_out(nets: &[DNet]) -> bool
    ensures { result ≡ list_all all_lead_out_of nets.now }
{
    nets.iter().all(|net| all_lead_out(net))
}

/// Whether capacitances are all to ground.
fn are_grounded(caps: &[Cap]) -> bool
    ensures { result ≡ list_all (λ cap. is_none cap.b) caps.now }
{
    caps.iter().all(|cap| cap.b.is_none())
}

/// Whether a net has no coupling.
fn has_none(net: &DNet) -> bool
    ensures { result ≡ (length (couplings_of net.now) == 0) }
{
    are_grounded(net.caps.items())
}

/// How many nets have each name.
fn counts_of(alloc: Global, nets: &[DNet]) -> Result<IndexMap<u32, usize>, NoMemory>
    ensures { IfOk result (λ counts. CountsNames counts nets.now) }
{
    let mut counts = IndexMap::new(alloc);
    for net in nets {
        let count = counts.get(&net.name).copied().unwrap_or(0);
        counts.insert(net.name, count + 1)?;
    }
    Ok(counts)
}

/// Whether a net has no coupling, or its name alone.
fn is_counted_once(counts: &IndexMap<u32, usize>, net: &DNet) -> bool
    ensures { result ≡ is_counted_once_in counts.now net.now }
{
    has_none(net) || counts.get(&net.name).copied().unwrap_or(0) == 1
}

/// Whether nets have no coupling, or their names alone.
fn are_counted_once(counts: &IndexMap<u32, usize>, nets: &[DNet]) -> bool
    ensures { result ≡ list_all (is_counted_once_in counts.now) nets.now }
{
    nets.iter().all(|net| is_counted_once(counts, net))
}

/// Whether each net with couplings has its name alone.
fn are_single(alloc: Global, nets: &[DNet]) -> Result<bool, NoMemory>
    ensures { IfOk result (λ single. single ≡ list_all (is_single nets.now) nets.now) }
{
    let counts = counts_of(alloc, nets)?;
    Ok(are_counted_once(&counts, nets))
}

/// Appends a capacitance, where it is a coupling.
fn put_coupling<'a>(entries: &mut Vec<Entry<'a>>, cap: &'a Cap) -> Result<(), NoMemory>
    ensures { OnOk result (seen entries.new.items ≡ seen entries.old.items ++ option_to_list (coupling_of cap.now)) }
{
    match cap.coupling() {
        None => Ok(()),
        Some(entry) => Ok(entries.push(entry)?),
    }
}

/// Appends the couplings of a net.
fn put_couplings<'a>(entries: &mut Vec<Entry<'a>>, net: &'a DNet) -> Result<(), NoMemory>
    ensures { OnOk result (seen entries.new.items ≡ seen entries.old.items ++ couplings_of net.now) }
{
    for cap in net.caps.items() {
        put_coupling(entries, cap)?;
    }
    Ok(())
}

/// The couplings of nets.
fn couplings(alloc: Global, nets: &[DNet]) -> Result<Vec<Entry<'_>>, NoMemory>
    ensures { IfOk result (λ entries. seen entries.items ≡ all_couplings nets.now) }
{
    let mut entries = Vec::new(alloc);
    for net in nets {
        put_couplings(&mut entries, net)?;
    }
    Ok(entries)
}

/// The values of couplings by their ends. None where two have the same ends in the same order.
fn by_ends<'a>(
    alloc: Global,
    entries: &[Entry<'a>],
) -> Result<Option<IndexMap<Joint<'a>, u128>>, NoMemory>
    ensures { IfOk result (λ values. MatchOption values (list_all (is_once (seen entries.now)) (seen entries.now) ≡ false) (λ values. (values.entries ≡ map pair_of entries.now) × (list_all (is_once (seen entries.now)) (seen entries.now) ≡ true))) }
{
    let mut values = IndexMap::new(alloc);
    for entry in entries {
        if values.insert(entry.joint, entry.value)?.is_some() {
            return Ok(None);
        }
    }
    Ok(Some(values))
}

/// Whether a coupling stands the other way round, with the same value.
fn has_partner(values: &IndexMap<Joint<'_>, u128>, entry: &Entry<'_>) -> bool
    ensures { result ≡ finds_partner values.now.entries entry.now }
{
    match values.get(&entry.joint.turned()) {
        Some(value) => *value == entry.value,
        None => false,
    }
}

/// Whether couplings all stand the other way round, with the same value.
fn have_partners(values: &IndexMap<Joint<'_>, u128>, entries: &[Entry<'_>]) -> bool
    ensures { result ≡ list_all (finds_partner values.now.entries) entries.now }
{
    entries.iter().all(|entry| has_partner(values, entry))
}

/// Whether each coupling stands once, and once the other way round with the same value.
fn pair_up(alloc: Global, entries: &[Entry<'_>]) -> Result<bool, NoMemory>
    ensures { IfOk result (λ paired. paired ≡ pair_up_of (seen entries.now)) }
{
    match by_ends(alloc, entries)? {
        None => Ok(false),
        Some(values) => Ok(have_partners(&values, entries)),
    }
}

/// Whether nets are balanced, test by test.
fn are_balanced(alloc: Global, nets: &[DNet]) -> Result<bool, NoMemory>
    ensures { IfOk result (λ balanced. balanced ≡ are_balanced_of nets.now) }
{
    if !have_totals(nets) {
        return Ok(false);
    }
    if !lead_out(nets) {
        return Ok(false);
    }
    if !are_single(alloc, nets)? {
        return Ok(false);
    }
    pair_up(alloc, &couplings(alloc, nets)?)
}

/// Whether each total is the sum of its net's capacitances, and each coupling is paired: it leads from its net to another, whose
/// name is that of one net alone; there one coupling stands between the same ends the other way round, and it has the same value;
/// and no other coupling of its own net has the same two ends. Names are told by their places. It makes two look-ups a coupling.
///
/// # Errors
///
/// `NoMemory` for want of memory.
pub fn is_balanced(alloc: Global, spef: &Spef) -> Result<bool, NoMemory>
    ensures { IfOk result (λ balanced. IsTrue balanced ↔ IsBalanced spef.now) }
{
    are_balanced(alloc, spef.nets.items())
}
