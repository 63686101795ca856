// The rows are raised in steps, one row at each: the first pass over them clears them, and then there is one pass for each card.
ghost use Rattle.std.specs.Prelude.{◌≡◌, ℕ, ◌<◌, ◌≤◌, ◌%◌};
ghost use Rattle.report.specs.Steps.{raise, step_index, step_tally, stepped, ValuesOf, Small, Raisable, Ready};

use crate::Tally;
use card::Card;

// How many values a well-formed card has under a parameter.
fn values_of(card: &Card<'_>, index: usize) -> u32
    ensures { ValuesOf card.now index result }
{
    card.entries()
        .filter(|e| usize::from(e.tag) == index)
        .count() as u32
}

// A row after a card with so many values under its parameter.
fn raised_by(values: u32, row: Tally) -> Tally
    requires { Small values row }
    ensures { result ≡ raise values row }
{
    if values == 0 {
        return row;
    }
    Tally {
        cards: row.cards + 1,
        values: row.values + values,
    }
}

// The row that step j is about, of n.
fn index_of(n: usize, j: usize) -> usize
    ensures { result ≡ step_index n j }
{
    if n == 0 {
        return j;
    }
    j % n
}

// What step j makes of its row.
fn raised(cards: &[u8], n: usize, j: usize, row: Tally) -> Tally
    requires { Raisable cards.now n j row }
    ensures { result ≡ step_tally cards.now n j row }
{
    if j < n {
        return Tally {
            cards: 0,
            values: 0,
        };
    }
    let end = 512 * (j / n);
    let start = end - 512;
    let card = Card {
        bytes: &cards[start..end],
    };
    raised_by(values_of(&card, j % n), row)
}

// The steps, from the first on.
pub fn raise_all(rows: &mut [Tally], cards: &[u8], n: usize, steps: usize)
    requires { (k : ℕ) → k < steps → Ready cards.now n k rows.old }
    ensures { rows.new ≡ stepped cards.now n steps rows.old }
{
    for j in 0..steps {
        let i = index_of(n, j);
        rows[i] = raised(cards, n, j, rows[i]);
    }
}
