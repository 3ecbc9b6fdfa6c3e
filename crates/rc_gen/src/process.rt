//! The texts of the technology and of the rules.

ghost use Rattle.std.specs.Prelude.{◌≡◌, ◌≤◌, ◌^◌, length};
ghost use Rattle.rc_gen.specs.Texts.{tech_text as tech_text_of, rules_text as rules_text_of};

/// Three routing layers, and a via between each two that are neighbours.
pub fn tech_text() -> &'static [u8]
    ensures text { result.now ≡ tech_text_of }
    ensures short { length result.now ≤ 1024 }
{
    b"UNITS\n  DATABASE MICRONS 1000 ;\nEND UNITS\n\
    LAYER m1\n  TYPE ROUTING ;\n  WIDTH 0.1 ;\nEND m1\n\
    LAYER v1\n  TYPE CUT ;\nEND v1\n\
    LAYER m2\n  TYPE ROUTING ;\n  WIDTH 0.1 ;\nEND m2\n\
    LAYER v2\n  TYPE CUT ;\nEND v2\n\
    LAYER m3\n  TYPE ROUTING ;\n  WIDTH 0.1 ;\nEND m3\n\
    VIA V12 DEFAULT\n  LAYER m1 ;\n    RECT -0.05 -0.05 0.05 0.05 ;\n  LAYER v1 ;\n    RECT -0.025 -0.025 0.025 0.025 ;\n  LAYER m2 ;\n    RECT -0.05 -0.05 0.05 0.05 ;\nEND V12\n\
    VIA V23 DEFAULT\n  LAYER m2 ;\n    RECT -0.05 -0.05 0.05 0.05 ;\n  LAYER v2 ;\n    RECT -0.025 -0.025 0.025 0.025 ;\n  LAYER m3 ;\n    RECT -0.05 -0.05 0.05 0.05 ;\nEND V23\n\
    END LIBRARY\n"
}

/// The rules of the three layers.
pub fn rules_text() -> &'static [u8]
    ensures text { result.now ≡ rules_text_of }
    ensures short { length result.now ≤ 1024 }
{
    b"RCXRULES 1 ;\n\
    LAYER m1 ;\n  WIDTHS 0.1 0.2 ;\n  DISTS 0.1 0.3 ;\n  RES 2 1 ;\n\
    \x20 TABLE UNDER NONE OVER NONE ;\n    ROW 0.1 0.2 0.15 0.1 0.3 ;\n    ROW 0.2 0.3 0.25 0.2 0.4 ;\n\
    END LAYER ;\n\
    LAYER m2 ;\n  WIDTHS 0.1 0.2 ;\n  DISTS 0.1 0.3 ;\n  RES 1 0.5 ;\n\
    \x20 TABLE UNDER NONE OVER NONE ;\n    ROW 0.1 0.2 0.15 0.1 0.3 ;\n    ROW 0.2 0.3 0.25 0.2 0.4 ;\n\
    \x20 TABLE UNDER m1 OVER NONE ;\n    ROW 0.3 0.1 0.35 0.05 0.5 ;\n    ROW 0.4 0.2 0.45 0.1 0.6 ;\n\
    END LAYER ;\n\
    LAYER m3 ;\n  WIDTHS 0.1 0.2 ;\n  DISTS 0.1 0.3 ;\n  RES 2 1 ;\n\
    \x20 TABLE UNDER NONE OVER NONE ;\n    ROW 0.1 0.2 0.15 0.1 0.3 ;\n    ROW 0.2 0.3 0.25 0.2 0.4 ;\n\
    END LAYER ;\n\
    VIA v1 10 ;\nVIA v2 10 ;\nCONTACT 5 ;\nEND RULES ;\n"
}
