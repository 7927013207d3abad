//! Laws of the octets, each the contract of a function with an empty body.
ghost use Rattle.std.specs.Prelude.{◌≡◌, [], ◌∷◌, ◌++◌, None, Some, Ok, Err};
ghost use Rattle.command_codec.specs.declared.fault.CodecFault.TheVariants as codec;
ghost use Rattle.realm_snapshot.specs.Writing.{saved};
ghost use Rattle.realm_snapshot.specs.Reading.{link_reading, call_reading};
ghost use Rattle.realm_snapshot.specs.Snapshot.{loaded};
ghost use Rattle.realm_snapshot.specs.Examples.{alone, unlike, alone_octets, its_link, its_link_octets, its_call, its_call_octets, small};

/// A realm of one session and its octets, which load as that realm, and with one more as none; its link and its call, read again with what
/// follows; and octets that are none of a call: without a request, and with one too few. Does not allocate.
pub fn examples()
    ensures saved { saved alone ≡ alone_octets }
    ensures loaded { loaded alone_octets ≡ Some alone }
    ensures other { loaded (saved unlike) ≡ Some alone }
    ensures rest { loaded (alone_octets ++ (0 ∷ [])) ≡ None }
    ensures link { link_reading (its_link_octets (9 ∷ [])) ≡ Ok (its_link, 9 ∷ []) }
    ensures call { call_reading (its_call_octets 7 (9 ∷ [])) ≡ Ok (its_call, 9 ∷ []) }
    ensures request { call_reading (its_call_octets 0 []) ≡ Err codec.Range }
    ensures short { call_reading (small 5) ≡ Err codec.Short }
    ensures none { loaded [] ≡ None }
{}
