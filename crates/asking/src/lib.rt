// A list of questions, and what refusal 20 asks of it.
#![tactic(auto)]

ghost use Rattle.std.specs.Prelude.{◌≡◌, ◌*◌, ◌≤◌, length};
ghost use Rattle.words.specs.Below.{all_below};
ghost use Rattle.asking.specs.Questions.{question_size, most_questions, place_at, kind_at, good_question, good_list};

// The most questions of a list, and the bytes of a question.
const MOST: usize = 200;

pub const QUESTION: usize = 3;

// Whether a place and a kind are in range, where there are c counterparties.
#[tactic(auto, unfolding(crate::specs::Questions::good_question))]
fn good_question(place: u16, kind: u8, c: u16) -> bool
    ensures { result ≡ good_question c place kind }
{
    (1 <= place) & (place <= c) & (1 <= kind) & (kind <= 11) & (kind != 9)
}

// Whether those of the first n questions are.
fn all_good(questions: &[u8], n: usize, c: u16) -> bool
    requires { (n ≤ most_questions) × (question_size * n ≤ length questions.now) }
    ensures { result ≡ all_below n (λ k. good_question c (place_at questions.now k) (kind_at questions.now k)) }
{
    (0..n).all(|k| {
        let place = wire::u16_at(questions, QUESTION * k);
        good_question(place, questions[QUESTION * k + 2], c)
    })
}

// Whether a list is one of up to MOST questions, all in range.
#[tactic(auto, unfolding(crate::specs::Questions::good_list))]
pub fn good_list(questions: &[u8], c: u16) -> bool
    ensures { result ≡ good_list c questions.now }
{
    let n = questions.len() / QUESTION;
    n <= MOST && questions.len() == QUESTION * n && all_good(questions, n, c)
}
