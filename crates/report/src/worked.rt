// What the rules come to on worked records.
ghost use Rattle.std.specs.Prelude.{◌≡◌, codes};
ghost use Rattle.records.specs.Layout.{InFormat};
ghost use Rattle.task.specs.Example.{example};
ghost use Rattle.task.specs.Rules.{Sound};
ghost use Rattle.kinds.specs.Worked.{record_a, record_c, calls};
ghost use Rattle.listing.specs.Text.{report_text};
ghost use Rattle.report.specs.Reported.{slot_findings};
ghost use Rattle.report.specs.Worked.{last_line_findings, letters_at, with_window, task_load};

// The worked records are in format and sound, and this is what is found of them.
pub fn worked()
    ensures a { report_text record_a (slot_findings record_a) ≡ codes "figure=62\nfits=yes\nload=62\ncharged=2\nfetches=44\npasses=2\nfetch=0,0,0,fm\nfetch=0,1,0,h\nfetch=1,0,0,h/h\nfetch=1,1,0,h/h\nfetch=1,2,1,fm/fm\nfetch=1,3,1,h/h\nfetch=2,0,1,h\nfetch=2,1,1,h\n" }
    ensures wide { task_load (with_window 24800 record_a) ≡ 3 }
    ensures last_line { ((last_line_findings record_a).figure ≡ 62) × ((last_line_findings record_a).passes ≡ 3) × (letters_at (last_line_findings record_a) 1 0 ≡ codes "fm/fm") }
    ensures b { ((slot_findings example).figure ≡ 108) × ((slot_findings example).passes ≡ 3) × (letters_at (slot_findings example) 1 0 ≡ codes "fh/m") × (letters_at (slot_findings example) 2 0 ≡ codes "m/m") }
    ensures c { ((slot_findings record_c).figure ≡ 10) × ((slot_findings record_c).passes ≡ 1) × (letters_at (slot_findings record_c) 0 0 ≡ codes "fm") }
    ensures calls { ((slot_findings calls).figure ≡ 623) × ((slot_findings calls).greatest ≡ (44, 227)) × ((slot_findings calls).passes ≡ 3) }
    ensures sound_a { InFormat record_a × Sound record_a }
    ensures sound_b { InFormat example × Sound example }
    ensures sound_c { InFormat record_c × Sound record_c }
{}
