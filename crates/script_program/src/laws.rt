//! Laws and worked examples, each the contract of a function with an empty body.
ghost use Rattle.std.specs.Prelude.{◌≡◌, false, true, ◌∷◌, [], Some, Ok, Err, codes};
ghost use Rattle.realm_acts.specs.declared.act.Act.TheVariants.{Connect, Said, Hung};
ghost use Rattle.wamp_messages.specs.Reading.{read_of};
ghost use Rattle.script_program.specs.declared.lines.line.Line.TheVariants.{Take, Start, Suspect, Deliver, Cut, Flush};
ghost use Rattle.script_program.specs.Examples.{spelled, are_events, lines, no_events, bad_third, said_twice};
ghost use Rattle.script_program.specs.Playing.{HandsOutAsRealm};

/// Computes by hand what lines spell in a cluster of three nodes, and which texts are not lines.
pub fn examples_of_lines()
    ensures no_events { are_events no_events ≡ false ∷ false ∷ false ∷ false ∷ false ∷ false ∷ false ∷ false ∷ false ∷ false
        ∷ false ∷ false ∷ false ∷ false ∷ false ∷ false ∷ false ∷ [] }
    ensures connect { spelled (codes "take 3 4294967295 connect") ≡ Some (Take 3 4294967295 Connect) }
    ensures says_nothing { spelled (codes "take 1 1 say ") ≡ Some (Take 1 1 (Said 1 (read_of []))) }
    ensures says { spelled (codes "take 1 1 say [6, {}] ") ≡ Some (Take 1 1 (Said 1 (read_of (codes "[6, {}] ")))) }
    ensures suspects_itself { spelled (codes "suspect 1 1") ≡ Some (Suspect 1 1) }
    ensures cuts { spelled (codes "cut 3") ≡ Some (Cut 3) }
    ensures listed_twice { spelled (codes "flush 1 1") ≡ Some (Flush (false ∷ true ∷ false ∷ false ∷ false ∷ false ∷ false ∷ false ∷ [])) }
    ensures all { spelled (codes "flush") ≡ Some (Flush (false ∷ true ∷ true ∷ true ∷ false ∷ false ∷ false ∷ false ∷ [])) }
    ensures last_packet { spelled (codes "deliver 18446744073709551615") ≡ Some (Deliver 18446744073709551615) }
{}

/// Computes by hand what scripts spell in a cluster of three nodes: empty lines are counted, the last line feed may be missing, and only
/// lines that say something take a draw.
pub fn examples_of_scripts()
    ensures empty { lines [] ≡ Ok [] }
    ensures first_bad { lines (codes "jump 1") ≡ Err 1 }
    ensures third_bad { lines bad_third ≡ Err 3 }
    ensures one { lines (codes "start 1") ≡ Ok (Start 1 ∷ []) }
    ensures draws { lines said_twice ≡ Ok (Take 1 1 Connect ∷ Take 1 1 (Said 1 (read_of (codes "{"))) ∷ Take 1 1 Hung
        ∷ Take 2 1 (Said 2 (read_of (codes "["))) ∷ []) }
{}

/// In every world, transports are handed what the realm of the configuration says: that a realm carries its configuration changes
/// nothing.
pub fn realms_are_handed_out()
    ensures { HandsOutAsRealm }
{}
