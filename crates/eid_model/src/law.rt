//! Laws about every legal journal, and about forms.
ghost use Rattle.std.specs.Prelude.{◌≡◌, ◌<◌, ◌≤◌, ◌↔◌, ℕ, List, ◌∷◌, ◌++◌, length, Some, false, true, is_some};
ghost use Rattle.eid_apdu.specs.Command.{PlainCommand};
ghost use Rattle.eid_bits.specs.Date.{number_of};
ghost use Rattle.eid_record.specs.Plain.{FullRecord, PlainEffect, Spend};
ghost use Rattle.eid_password.specs.Passwords.{ALL_TRIES};
ghost use Rattle.eid_copro.specs.Told.{Source, AnswersFrom};
ghost use Rattle.eid_ri.specs.SectorKeys.{PlainSectorKeys};
ghost use Rattle.eid_model.specs.Moments.{PlainMoment, live, script, asked, leaves_no_session, AreSteady};
ghost use Rattle.eid_model.specs.Runs.{run, phase};
ghost use Rattle.eid_model.specs.Sessions.{fresh};
ghost use Rattle.eid_model.specs.Legal.{AreLegal};
ghost use Rattle.eid_model.specs.Ledger.{ledger, kept, pending, state_of};
ghost use Rattle.eid_model.specs.Laws.{compares_pin, refused_pins, gives_back, goes_on_with_pin, HasCompleted, IsPending, IsChipProven, IsTerminalKnown, HasItsRight, HasRight, SelectionHolds, comparison_asked, group_read, sectors_asked, tells_comparison, others_hold, others_hold_but_36, sent_at};
ghost use Rattle.eid_model.specs.declared.comparison.Comparison.{Comparison};
ghost use Rattle.eid_model.specs.Rules.{RESTRICTED_IDENTIFICATION, is_granted, reading};
ghost use Rattle.eid_model.specs.Bodies.{NamesKey, authentication_data, data_in, holds_value, key_name_in};

/// There is one journal for an opening record, a script and a source of the coprocessor's answers, as
/// long as the power stays steady: what came determines what was answered.
pub fn law_one_journal()
    ensures { (source : Source) (opening : FullRecord) (one other : List PlainMoment) → AreLegal opening one → AreLegal opening other
        → AreSteady one → AreSteady other → script one ≡ script other
        → AnswersFrom source (asked one) → AnswersFrom source (asked other) → one ≡ other }
{}

/// Power and want of power leave no session: after a power-on, a power-off and a lost moment there is no
/// channel, no PACE and no run, and no right is granted.
pub fn law_fresh()
    ensures session { (opening : FullRecord) (m : PlainMoment) (before : List PlainMoment) → AreLegal opening (m ∷ before)
        → leaves_no_session m ≡ true → state_of opening (m ∷ before) ≡ fresh }
    ensures granted { (opening : FullRecord) (m : PlainMoment) (before : List PlainMoment) (bit : ℕ) → AreLegal opening (m ∷ before)
        → leaves_no_session m ≡ true → is_granted (state_of opening (m ∷ before)) bit ≡ false }
{}

/// A data group is answered exactly where this session has completed PACE, terminal authentication and chip authentication, the
/// right to read it stands in the template that the holder gave in that PACE and in those of the trust point, the document
/// verifier and the terminal, and all other rules on a READ BINARY hold. A comparison is answered, by yes or by no, exactly where
/// the session has completed these, the right that it takes, if it takes one, stands in these templates, and all other rules
/// on a VERIFY hold but that it is a yes. The identifiers in sectors are answered exactly where the session has completed these,
/// the right to restricted identification stands in these templates, the selection's other conditions hold, and all other
/// rules on the step hold.
pub fn law_access()
    ensures group { (opening : FullRecord) (m : PlainMoment) (before : List PlainMoment) (c : PlainCommand) (group : ℕ)
        → AreLegal opening (m ∷ before) → m.plain ≡ Some c → is_some m.answer ≡ true → group_read (sent_at opening before c m) ≡ Some group
        → m.rule ≡ 0 ↔ (HasCompleted (sent_at opening before c m).state × HasRight (sent_at opening before c m).state (reading group)
        × (others_hold (sent_at opening before c m) ≡ true)) }
    ensures comparison { (opening : FullRecord) (m : PlainMoment) (before : List PlainMoment) (c : PlainCommand) (comparison : Comparison)
        → AreLegal opening (m ∷ before) → m.plain ≡ Some c → is_some m.answer ≡ true
        → comparison_asked (sent_at opening before c m) ≡ Some comparison
        → (tells_comparison m.rule ≡ true)
        ↔ (HasCompleted (sent_at opening before c m).state × HasItsRight (sent_at opening before c m).state comparison
        × (others_hold_but_36 (sent_at opening before c m) ≡ true)) }
    ensures identifier { (opening : FullRecord) (m : PlainMoment) (before : List PlainMoment) (c : PlainCommand) (keys : PlainSectorKeys)
        → AreLegal opening (m ∷ before) → m.plain ≡ Some c → is_some m.answer ≡ true → sectors_asked (sent_at opening before c m) ≡ Some keys
        → m.rule ≡ 0
        ↔ (HasCompleted (sent_at opening before c m).state × HasRight (sent_at opening before c m).state RESTRICTED_IDENTIFICATION
        × SelectionHolds (sent_at opening before c m).state × (others_hold (sent_at opening before c m) ≡ true)) }
{}

/// Each token of the PIN costs a try first: where a moment compared one, rightly or not, its Spend is the first effect that
/// the moment entered in the ledger.
pub fn law_spend()
    ensures { (opening : FullRecord) (m : PlainMoment) (before : List PlainMoment) → AreLegal opening (m ∷ before)
        → compares_pin m before ≡ true
        → (later : List PlainEffect) × (ledger opening (m ∷ before) ≡ later ++ Spend ∷ ledger opening before) }
{}

/// The ledger never loses an effect: whatever comes later, power cuts too, what was committed stays.
pub fn law_kept()
    ensures { (opening : FullRecord) (later before : List PlainMoment)
        → (gained : List PlainEffect) × (ledger opening (later ++ before) ≡ gained ++ ledger opening before) }
{}

/// A PACE with the PIN goes on behind its first step only while a try is left.
pub fn law_try_left()
    ensures { (opening : FullRecord) (moments : List PlainMoment) → AreLegal opening moments
        → goes_on_with_pin (phase (run (live moments))) ≡ true → 1 ≤ (kept opening moments).fields.tries }
{}

/// As long as no effect gives the tries back, at most three tokens of the PIN are refused, over however many sessions
/// and power cuts.
pub fn law_tries()
    ensures { (opening : FullRecord) (recent before : List PlainMoment) (gained : List PlainEffect)
        → AreLegal opening (recent ++ before) → opening.fields.tries ≤ ALL_TRIES
        → ledger opening (recent ++ before) ≡ gained ++ ledger opening before → gives_back gained ≡ false
        → refused_pins recent before ≤ ALL_TRIES }
{}

/// The chip's date never falls: whatever comes later, power cuts too, the date kept is at least as late.
pub fn law_date()
    ensures { (opening : FullRecord) (later before : List PlainMoment)
        → number_of (kept opening before).fields.date ≤ number_of (kept opening (later ++ before)).fields.date }
{}

/// Looking back tells the effect that is pending: it is the first that did not finish of the last command in which the
/// power was cut, where no power-on behind that command found a number.
pub fn law_pending()
    ensures { (opening : FullRecord) (moments : List PlainMoment) (effect : PlainEffect)
        → pending opening moments ≡ Some effect ↔ IsPending opening moments effect }
{}

/// Looking back tells whether the chip is authenticated: exactly where the session carried out a chip authentication,
/// and behind it neither a PACE nor a terminal authentication. In a legal journal it has carried out a terminal
/// authentication then, too, and behind that no PACE.
pub fn law_chip_proven()
    ensures chip { (opening : FullRecord) (moments : List PlainMoment)
        → (state_of opening moments).chip_proven ≡ true ↔ IsChipProven (live moments) }
    ensures terminal { (opening : FullRecord) (moments : List PlainMoment) → AreLegal opening moments
        → (state_of opening moments).chip_proven ≡ true → IsTerminalKnown (live moments) }
{}

/// The definition of the name in a body of MSE:Set DST, as a function, gives exactly that name.
pub fn law_key_name()
    ensures { (body name : List ℕ) → key_name_in body ≡ Some name ↔ NamesKey body name }
{}

/// Reading a body of GENERAL AUTHENTICATE is the converse of writing it: it holds a value of this size under the
/// tag exactly where one was written there, and then that one (one-byte tags, at most 100 bytes).
pub fn law_authentication_data()
    ensures form { (tag size : ℕ) (body : List ℕ) → tag < 256 → size ≤ 100
        → (holds_value tag size body ≡ true) ↔ ((value : List ℕ) × (body ≡ authentication_data tag value) × (length value ≡ size)) }
    ensures value { (tag : ℕ) (value : List ℕ) → tag < 256 → length value ≤ 100
        → data_in (authentication_data tag value) ≡ value }
{}
