//! A law of the steps at the table, and examples of what they add: contracts of functions that do nothing.
ghost use Rattle.std.specs.Prelude.{◌≡◌, [], ◌∷◌, ◌++◌, length};
ghost use Rattle.mail_table.specs.Examples.{one_of_three, poster, reader, to_two, to_three};
ghost use Rattle.mail_table.specs.Laws.{LoadsLeaveTheTable};
ghost use Rattle.mail_table.specs.Views.{box_of, posting, posting_all, receiving, receiving_all, through, unopened};

/// The load before a claim or a fetch is no step of the protocol: whatever word it finds, the table keeps its rule with each word and each slot
/// as it was. The seat's view is as it was, too, or has one lost try more. Does not allocate.
pub fn loads<B>()
    ensures { LoadsLeaveTheTable B }
{}

/// What boxes carry, computed. Does not allocate.
pub fn batch_examples()
    // what is posted together goes through its box in order, after what was posted before, and through no other
    ensures in_order { through one_of_three poster.posted ≡ to_two 1 ∷ to_two 2 ∷ to_two 3 ∷ [] }
    ensures else_order { through (box_of 3 1 3) poster.posted ≡ to_three ∷ [] }
    ensures none { through (box_of 3 2 1) poster.posted ≡ [] }

    // each batch is one try, and so is one that is lost
    ensures tries { length poster.tried ≡ 4 }
    ensures taken { length reader.tried ≡ 2 }

    // what was posted is what was received, followed by what the box holds
    ensures ahead { through one_of_three poster.posted ≡ through one_of_three reader.received ++ to_two 3 ∷ [] }

    // a packet alone is a batch of one
    ensures alone { posting one_of_three (to_two 1) (unopened 1) ≡ posting_all one_of_three (to_two 1 ∷ []) (unopened 1) }
    ensures alone_again { receiving one_of_three (to_two 1) (unopened 2) ≡ receiving_all one_of_three (to_two 1 ∷ []) (unopened 2) }
{}
