//! The keywords of each format.

use rc_fixed::NoMemory;
use rc_keys::{
    DEF_KEYS, KeyTable, LEF_KEYS, RULE_KEYS, SCRIPT_KEYS, SPEF_KEYS, def_keys, lef_keys, rule_keys,
    script_keys, spef_keys,
};
use std::alloc::Global;
use std::test::Fail;

/// The keywords of LEF.
const LEF: &str = "\
    ; ( ) + - UNITS DATABASE MICRONS END LIBRARY LAYER TYPE ROUTING CUT WIDTH VIA DEFAULT \
    TOPOFSTACKONLY VIARULE CUTSIZE LAYERS CUTSPACING ENCLOSURE ROWCOL RECT MASK POLYGON ORIGIN \
    OFFSET PATTERN NONDEFAULTRULE SPACING MACRO SIZE BY PIN DIRECTION INPUT OUTPUT TRISTATE \
    INOUT FEEDTHRU PORT ITERATE OBS DENSITY TIMING SITE ARRAY PROPERTYDEFINITIONS BEGINEXT \
    ENDEXT";

/// The keywords of DEF and its wiring.
const DEF: &str = "\
    ; ( ) + - * DESIGN UNITS DISTANCE MICRONS DIVIDERCHAR BUSBITCHARS END VIAS NONDEFAULTRULES \
    COMPONENTS PINS SPECIALNETS NETS REGIONS GROUPS BLOCKAGES SLOTS FILLS SCANCHAINS STYLES \
    PINPROPERTIES PROPERTYDEFINITIONS BEGINEXT ENDEXT RECT MASK VIARULE CUTSIZE LAYERS \
    CUTSPACING ENCLOSURE ROWCOL POLYGON ORIGIN OFFSET PATTERN LAYER WIDTH PLACED FIXED COVER N S \
    W E FN FS FW FE DIRECTION INPUT OUTPUT INOUT FEEDTHRU PORT SPACING DESIGNRULEWIDTH PIN \
    SYNTHESIZED NONDEFAULTRULE ROUTED NOSHIELD MUSTJOIN SUBNET VPIN USE SIGNAL POWER GROUND \
    SHIELD SHAPE VIA NEW TAPER TAPERRULE STYLE VIRTUAL DO";

/// The keywords of rule files.
const RULE: &str = "\
    ; ( ) + - RCXRULES VIA CONTACT END RULES LAYER WIDTHS DISTS RES TABLE UNDER OVER NONE ROW";

/// The keywords of scripts.
const SCRIPT: &str = "\
    ; ( ) + - REPLACE ROUTED FIXED COVER NOSHIELD SPEF NET STAT END";

/// The keywords of SPEF.
const SPEF: &str = "\
    *SPEF *DESIGN *DATE *VENDOR *PROGRAM *VERSION *DESIGN_FLOW *DIVIDER *DELIMITER \
    *BUS_DELIMITER *T_UNIT *C_UNIT *R_UNIT *L_UNIT *NAME_MAP *PORTS *D_NET *V *CONN *CAP *RES \
    *END *P *I *N *C *L *D *S *R_NET *POWER_NETS *GROUND_NETS *DEFINE *PHYSICAL_PORTS *INDUC FF \
    PF OHM KOHM : I O B";

/// The place of a word among these, looked for at each place.
fn place(words: &str, word: &[u8]) -> Option<usize> {
    for (k, other) in words.split(' ').enumerate() {
        if other.as_bytes() == word {
            return Some(k);
        }
    }
    None
}

/// Whether a table has this word at its place among these, or doesn't have it where it isn't one of them.
fn finds<const N: usize>(keys: &KeyTable<N>, words: &str, word: &[u8]) -> bool {
    match (keys.find(word), place(words, word)) {
        (Some(k), Some(wanted)) => k as usize == wanted,
        (None, None) => true,
        _ => false,
    }
}

/// Whether a table is right at a word, and at it with one byte more, with one byte fewer, with another last byte and with its
/// first byte in lower case.
fn is_right_about<const N: usize>(
    alloc: Global,
    keys: &KeyTable<N>,
    words: &str,
    word: &[u8],
) -> Result<bool, NoMemory> {
    let mut changed = Vec::from_slice(alloc, word)?;
    changed.push(b'S')?;
    let mut right = finds(keys, words, word) && finds(keys, words, &changed);
    changed.pop();
    if let Some(last) = changed.pop() {
        right = right && finds(keys, words, &changed);
        changed.push(last ^ 1)?;
        right = right && finds(keys, words, &changed);
    }
    if let Some(first) = changed.first_mut() {
        *first = first.to_ascii_lowercase();
    }
    Ok(right && finds(keys, words, &changed))
}

/// How many of these words a table is right about, up to the first at which it isn't.
fn right<const N: usize>(
    alloc: Global,
    keys: &KeyTable<N>,
    words: &str,
) -> Result<usize, NoMemory> {
    let mut count: usize = 0;
    for word in words.split(' ') {
        if !is_right_about(alloc, keys, words, word.as_bytes())? {
            return Ok(count);
        }
        count = count.saturating_add(1);
    }
    Ok(count)
}

#[test]
fn each_keyword_is_found_and_no_other_word(rt: HostRuntime) -> Result<(), Fail> {
    let alloc = rt.alloc();
    assert_eq!(rt; right(alloc, &lef_keys(), LEF)?, LEF_KEYS);
    assert_eq!(rt; right(alloc, &def_keys(), DEF)?, DEF_KEYS);
    assert_eq!(rt; right(alloc, &rule_keys(), RULE)?, RULE_KEYS);
    assert_eq!(rt; right(alloc, &script_keys(), SCRIPT)?, SCRIPT_KEYS);
    assert_eq!(rt; right(alloc, &spef_keys(), SPEF)?, SPEF_KEYS);
    assert_eq!(rt; lef_keys().find(b""), None);
    Ok(())
}
