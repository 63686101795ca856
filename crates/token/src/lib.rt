// Tokens: system and code on a card, and the four forms that are asked for, matched against each other.
// A text is split at a bar, and the parts before and after it are handed on as slices.
#![tactic(auto)]

ghost use Rattle.std.specs.Prelude.{◌≡◌, true};
ghost use Rattle.std.proofs.Math.Option.{some};
ghost use Rattle.text.specs.Compare.{same};
ghost use Rattle.base.specs.Split.{parts};
ghost use Rattle.token.specs.Card.{token_of, card_token, card_readable};
ghost use Rattle.token.specs.Filter.{split_form, form_at, readable_at, filter_readable};
ghost use Rattle.token.specs.Namespace.{namespace_of, system_of};
ghost use Rattle.token.specs.Match.{meets, matches, matches_at};

// Whether the last byte of a text is no bar: then it ends in a code, wherever a bar stands.
fn ends_in_code(s: &[u8]) -> bool
    ensures { result ≡ true → true ≡ card_readable s.now }
{
    if s.len() == 0 {
        return false;
    }
    let last = s.len() - 1;
    s[last] != b'|'
}

// Whether a card's text is a token: "system, perhaps empty, and code, not empty". A bar is sought only where one is last.
pub fn card_readable(s: &[u8]) -> bool
    ensures { result ≡ card_readable s.now }
{
    if ends_in_code(s) {
        return true;
    }
    let bar = base::first_of(s, b'|');
    if bar < s.len() {
        return bar + 1 < s.len();
    }
    0 < s.len()
}

// Whether a filter's text is a token: "an empty text and a lone | are unreadable".
pub fn filter_readable(s: &[u8]) -> bool
    ensures { result ≡ filter_readable s.now }
{
    if s.len() == 0 {
        return false;
    }
    if 1 < s.len() {
        return true;
    }
    s[0] != b'|'
}

// Whether a text that is split at `bar`, or has no bar, is one of the four forms.
pub fn readable_at(s: &[u8], bar: usize) -> bool
    ensures { result ≡ readable_at bar s.now }
{
    if bar < s.len() {
        return 1 < s.len();
    }
    0 < s.len()
}

// Whether a card's system is the one that a filter names: a short name stands for its namespace, any other for itself.
fn namespace_matches(system: &[u8], asked: &[u8]) -> bool
    ensures { result ≡ same system.now (namespace_of asked.now) }
{
    if text::same(asked, b"loinc") {
        return text::same(system, b"http://loinc.org");
    }
    if text::same(asked, b"snomed") {
        return text::same(system, b"http://snomed.info/sct");
    }
    if text::same(asked, b"rxnorm") {
        return text::same(system, b"http://www.nlm.nih.gov/research/umls/rxnorm");
    }
    if text::same(asked, b"ucum") {
        return text::same(system, b"http://unitsofmeasure.org");
    }
    text::same(system, asked)
}

// Whether a card's system is the one that is asked for: where short names are meant, one stands for its namespace; any other for itself.
fn system_matches(system: &[u8], asked: &[u8], short: bool) -> bool
    ensures { result ≡ same system.now (system_of short asked.now) }
{
    if short {
        return namespace_matches(system, asked);
    }
    text::same(system, asked)
}

// Whether the token of a card's system and code is what a token with a bar asks for, by the parts before and after the bar.
fn parts_match(system: &[u8], code: &[u8], before: &[u8], after: &[u8], short: bool) -> bool
    ensures { result ≡ meets short (some (record { system = system.entry.now; code = code.now })) (split_form (parts before.now after.now)) }
{
    if before.len() == 0 {
        if after.len() == 0 {
            return false;
        }
        // "|code (no system)"
        if system.len() != 0 {
            return false;
        }
        return text::same(code, after);
    }
    if after.len() == 0 {
        // "system| (every code of it)"
        return system_matches(system, before, short);
    }
    // "system|code"; the codes come first, since they differ more often than the systems
    text::same(code, after) && system_matches(system, before, short)
}

// The same for a token that is split at `bar`, or has no bar.
fn token_matches(system: &[u8], code: &[u8], asked: &[u8], bar: usize, short: bool) -> bool
    ensures { result ≡ meets short (token_of system.now code.now) (form_at bar asked.now) }
{
    if code.len() == 0 {
        return false;
    }
    if bar < asked.len() {
        let after = bar + 1;
        return parts_match(system, code, &asked[..bar], &asked[after..], short);
    }
    if asked.len() == 0 {
        return false;
    }
    // "code (no bar, whichever system)"
    text::same(code, asked)
}

// The same for a card's text.
fn split_matches(card: &[u8], asked: &[u8], bar: usize, short: bool) -> bool
    ensures { result ≡ meets short (card_token card.now) (form_at bar asked.now) }
{
    let split = base::first_of(card, b'|');
    if split < card.len() {
        let after = split + 1;
        return token_matches(&card[..split], &card[after..], asked, bar, short);
    }
    // "with no bar it is a code whose system is empty"
    token_matches(b"", card, asked, bar, short)
}

// Whether a card's token is what a filter's token asks for; false where either text is unreadable.
pub fn matches(card: &[u8], filter: &[u8]) -> bool
    ensures { result ≡ matches card.now filter.now }
{
    split_matches(card, filter, base::first_of(filter, b'|'), true)
}

// Whether a card's token is what a text asks for that is split at `bar`, its system taken as it is written.
pub fn matches_at(card: &[u8], bar: usize, asked: &[u8]) -> bool
    ensures { result ≡ matches_at card.now bar asked.now }
{
    split_matches(card, asked, bar, false)
}
