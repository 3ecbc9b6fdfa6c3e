//! The keywords of the five formats.

ghost use Rattle.std.specs.Prelude.{◌≡◌};
ghost use Rattle.rc_keys.specs.KeyWords.{AreDifferent, lef_words, def_words, rule_words, script_words, spef_words};

use crate::key_table::KeyTable;
use crate::key_word::KeyWord;

/// A table of these words.
macro_rules! table {
    ($($word:literal)*) => {
        KeyTable::new([$(KeyWord::new($word)),*])
    };
}

/// How many keywords LEF has.
pub const LEF_KEYS: usize = 52;

/// How many keywords DEF and its wiring have.
pub const DEF_KEYS: usize = 84;

/// How many keywords rule files have.
pub const RULE_KEYS: usize = 19;

/// How many keywords scripts have.
pub const SCRIPT_KEYS: usize = 14;

/// How many keywords SPEF has.
pub const SPEF_KEYS: usize = 43;

/// The keywords of LEF.
#[tactic(auto, using(crate::proofs::Different::lef_differ), unfolding(crate::specs::KeyWords::lef_words))]
pub fn lef_keys() -> KeyTable<LEF_KEYS>
    ensures words { result ≡ lef_words }
    ensures differ { AreDifferent result }
{
    table!(
        b";" b"(" b")" b"+" b"-" b"UNITS" b"DATABASE" b"MICRONS" b"END" b"LIBRARY" b"LAYER" b"TYPE"
        b"ROUTING" b"CUT" b"WIDTH" b"VIA" b"DEFAULT" b"TOPOFSTACKONLY" b"VIARULE" b"CUTSIZE"
        b"LAYERS" b"CUTSPACING" b"ENCLOSURE" b"ROWCOL" b"RECT" b"MASK" b"POLYGON" b"ORIGIN"
        b"OFFSET" b"PATTERN" b"NONDEFAULTRULE" b"SPACING" b"MACRO" b"SIZE" b"BY" b"PIN" b"DIRECTION"
        b"INPUT" b"OUTPUT" b"TRISTATE" b"INOUT" b"FEEDTHRU" b"PORT" b"ITERATE" b"OBS" b"DENSITY"
        b"TIMING" b"SITE" b"ARRAY" b"PROPERTYDEFINITIONS" b"BEGINEXT" b"ENDEXT"
    )
}

/// The keywords of DEF and its wiring.
#[tactic(auto, using(crate::proofs::Different::def_differ), unfolding(crate::specs::KeyWords::def_words))]
pub fn def_keys() -> KeyTable<DEF_KEYS>
    ensures words { result ≡ def_words }
    ensures differ { AreDifferent result }
{
    table!(
        b";" b"(" b")" b"+" b"-" b"*" b"DESIGN" b"UNITS" b"DISTANCE" b"MICRONS" b"DIVIDERCHAR"
        b"BUSBITCHARS" b"END" b"VIAS" b"NONDEFAULTRULES" b"COMPONENTS" b"PINS" b"SPECIALNETS"
        b"NETS" b"REGIONS" b"GROUPS" b"BLOCKAGES" b"SLOTS" b"FILLS" b"SCANCHAINS" b"STYLES"
        b"PINPROPERTIES" b"PROPERTYDEFINITIONS" b"BEGINEXT" b"ENDEXT" b"RECT" b"MASK" b"VIARULE"
        b"CUTSIZE" b"LAYERS" b"CUTSPACING" b"ENCLOSURE" b"ROWCOL" b"POLYGON" b"ORIGIN" b"OFFSET"
        b"PATTERN" b"LAYER" b"WIDTH" b"PLACED" b"FIXED" b"COVER" b"N" b"S" b"W" b"E" b"FN" b"FS"
        b"FW" b"FE" b"DIRECTION" b"INPUT" b"OUTPUT" b"INOUT" b"FEEDTHRU" b"PORT" b"SPACING"
        b"DESIGNRULEWIDTH" b"PIN" b"SYNTHESIZED" b"NONDEFAULTRULE" b"ROUTED" b"NOSHIELD" b"MUSTJOIN"
        b"SUBNET" b"VPIN" b"USE" b"SIGNAL" b"POWER" b"GROUND" b"SHIELD" b"SHAPE" b"VIA" b"NEW"
        b"TAPER" b"TAPERRULE" b"STYLE" b"VIRTUAL" b"DO"
    )
}

/// The keywords of rule files.
#[tactic(auto, using(crate::proofs::Different::rules_differ), unfolding(crate::specs::KeyWords::rule_words))]
pub fn rule_keys() -> KeyTable<RULE_KEYS>
    ensures words { result ≡ rule_words }
    ensures differ { AreDifferent result }
{
    table!(
        b";" b"(" b")" b"+" b"-" b"RCXRULES" b"VIA" b"CONTACT" b"END" b"RULES" b"LAYER" b"WIDTHS"
        b"DISTS" b"RES" b"TABLE" b"UNDER" b"OVER" b"NONE" b"ROW"
    )
}

/// The keywords of scripts.
#[tactic(auto, using(crate::proofs::Different::scripts_differ), unfolding(crate::specs::KeyWords::script_words))]
pub fn script_keys() -> KeyTable<SCRIPT_KEYS>
    ensures words { result ≡ script_words }
    ensures differ { AreDifferent result }
{
    table!(
        b";" b"(" b")" b"+" b"-" b"REPLACE" b"ROUTED" b"FIXED" b"COVER" b"NOSHIELD" b"SPEF" b"NET"
        b"STAT" b"END"
    )
}

/// The keywords of SPEF.
#[tactic(auto, using(crate::proofs::Different::spef_differ), unfolding(crate::specs::KeyWords::spef_words))]
pub fn spef_keys() -> KeyTable<SPEF_KEYS>
    ensures words { result ≡ spef_words }
    ensures differ { AreDifferent result }
{
    table!(
        b"*SPEF" b"*DESIGN" b"*DATE" b"*VENDOR" b"*PROGRAM" b"*VERSION" b"*DESIGN_FLOW" b"*DIVIDER"
        b"*DELIMITER" b"*BUS_DELIMITER" b"*T_UNIT" b"*C_UNIT" b"*R_UNIT" b"*L_UNIT" b"*NAME_MAP"
        b"*PORTS" b"*D_NET" b"*V" b"*CONN" b"*CAP" b"*RES" b"*END" b"*P" b"*I" b"*N" b"*C" b"*L"
        b"*D" b"*S" b"*R_NET" b"*POWER_NETS" b"*GROUND_NETS" b"*DEFINE" b"*PHYSICAL_PORTS" b"*INDUC"
        b"FF" b"PF" b"OHM" b"KOHM" b":" b"I" b"O" b"B"
    )
}
