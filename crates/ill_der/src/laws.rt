//! Laws of the short form, as contracts of functions that do nothing.

ghost use Rattle.std.specs.Prelude.{◌≡◌, ◌≤◌, ◌++◌, ℕ, List, [], length, Ok, Err};
ghost use Rattle.ill_values.specs.declared.apdu.Apdu.{Apdu};
ghost use Rattle.ill_values.specs.Apdu.{IsApdu};
ghost use Rattle.ill_der.specs.declared.fault.DerFault.{DerFault};
ghost use Rattle.ill_der.specs.declared.fault.DerFault.TheVariants.{Short};
ghost use Rattle.ill_values.specs.declared.apdu_type.ApduType.TheVariants.{IllRequest};
ghost use Rattle.ill_values.specs.Types.{type_of};
ghost use Rattle.ill_der.specs.ShortForm.{encoding, apdu_at};
ghost use Rattle.ill_der.specs.Stream.{IfShort};
ghost use Rattle.std.specs.List.{concat};
ghost use Rattle.ill_der.specs.Feed.{FeedState, Feeds, FeedsAll};
ghost use Rattle.ill_der.specs.Laws.{IsBytes, BeginsWithOne};

/// Each APDU in range is read from its encoding, whatever bytes follow. So `decode` returns the APDU that
/// `encode` encoded.
pub fn read_again()
    ensures { (apdu : Apdu) (rest : List ℕ) → IsApdu apdu →
        apdu_at (encoding apdu ++ rest) ≡ Ok (apdu, rest) }
{
    ill_values::laws::date_texts();
    ill_values::laws::text_sizes();
}

/// Two APDUs in range with equal encodings are equal.
pub fn one_apdu()
    ensures { (a b : Apdu) → IsApdu a → IsApdu b → encoding a ≡ encoding b → a ≡ b }
{
    read_again();
}

/// No encoding is a proper prefix of another.
pub fn no_prefix()
    ensures { (a b : Apdu) (rest : List ℕ) → IsApdu a → IsApdu b →
        encoding b ≡ encoding a ++ rest → rest ≡ [] }
{
    read_again();
}

/// The longest encoding has 359 bytes.
pub fn longest()
    ensures most { (apdu : Apdu) → IsApdu apdu → length (encoding apdu) ≤ 359 }
    ensures reached { (apdu : Apdu) × IsApdu apdu × (length (encoding apdu) ≡ 359) }
{
    ill_values::laws::date_texts();
    ill_values::laws::text_sizes();
}

/// The longest encoding of an APDU that is no ILL-Request has 162 bytes.
pub fn shorter()
    ensures most { (apdu : Apdu) → IsApdu apdu → (type_of apdu.body ≡ IllRequest → ⊥) →
        length (encoding apdu) ≤ 162 }
    ensures reached { (apdu : Apdu) × IsApdu apdu × (type_of apdu.body ≡ IllRequest → ⊥)
        × (length (encoding apdu) ≡ 162) }
{
    ill_values::laws::date_texts();
    ill_values::laws::text_sizes();
}

/// Bytes begin with the encoding of exactly one APDU, which is read from them. Or they begin with none and have a
/// fault, which is not `OutOfMemory`.
pub fn prefix_or_fault()
    ensures { (bytes : List ℕ) → IsBytes bytes → BeginsWithOne bytes (apdu_at bytes) }
{
    ill_values::laws::date_texts();
    ill_values::laws::text_sizes();
}

/// If bytes have a fault other than Short, they have it whatever bytes follow.
pub fn fault_stays()
    ensures { (bytes more : List ℕ) (fault : DerFault) → IfShort fault ⊥ →
        apdu_at bytes ≡ Err fault → apdu_at (bytes ++ more) ≡ Err fault }
{}

/// The number in Short is the number of the bytes, which is below 359.
pub fn short_has_the_size()
    ensures { (bytes : List ℕ) (n : ℕ) → apdu_at bytes ≡ Err (Short n) →
        (n ≡ length bytes) × (n ≤ 358) }
{
    ill_values::laws::date_texts();
    ill_values::laws::text_sizes();
}

/// Two pushes, one after the other, give the APDUs and the feed that one push of both pieces gives.
pub fn two_pushes()
    ensures { (old middle new : FeedState) (prefix piece : List ℕ) (first more : List Apdu) →
        Feeds old prefix first middle → Feeds middle piece more new →
        Feeds old (prefix ++ piece) (first ++ more) new }
{}

/// Let two lists of pieces have equal bytes. Pushed into empty feeds, both give equal APDUs and leave equal feeds.
pub fn any_cut()
    ensures { (pieces others : List (List ℕ)) (a b : List Apdu) (x y : FeedState) →
        concat pieces ≡ concat others → FeedsAll (Ok []) pieces a x → FeedsAll (Ok []) others b y →
        (a ≡ b) × (x ≡ y) }
{
    read_again();
}

/// After any pushes into an empty feed, the feed holds at most 358 bytes, fewer than the longest APDU has.
pub fn few_are_held()
    ensures { (pieces : List (List ℕ)) (apdus : List Apdu) (held : List ℕ) →
        FeedsAll (Ok []) pieces apdus (Ok held) → length held ≤ 358 }
{
    short_has_the_size();
}
