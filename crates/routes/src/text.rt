// The lines of a route's text, put one behind the other.
ghost use Rattle.std.specs.Prelude.{◌≡◌, ◌∷◌, [], ◌++◌};
ghost use Rattle.meaning.specs.Route.{digits, numbers, hop_text, route_text, refused_text};
ghost use Rattle.meaning.specs.Refusal.{number};
ghost use Rattle.checks.specs.Table.{line_of};
ghost use Rattle.routes.specs.Cited.{Room, line_text, figures};

use arrayvec::ArrayString;
use checks::Refusal;
use itoa::Buffer;
use std::marker::Model;

// A text in memory of its own, 1,145 bytes, which are enough for every text. Clauses see the bytes that are put.
#[derive(Drop)]
pub(crate) struct Text {
    held: ArrayString<1145>,
}

impl Model for Text {
    ghost use Rattle.std.specs.Prelude.{ℕ, List};

    ghost Value = { List ℕ };

    ghost view = { λ t. t.held.bytes };
}

impl Text {
    // Nothing is put yet.
    pub(crate) fn new() -> Text
        ensures { result ≡ [] }
    {
        Text {
            held: ArrayString::new(),
        }
    }

    // The bytes that are put.
    pub(crate) fn as_bytes(&self) -> &[u8]
        ensures { result.now ≡ self.now }
    {
        self.held.as_str().as_bytes()
    }

    // Puts a word.
    fn put(&mut self, word: &str)
        requires { Room self.old word.now }
        ensures { self.new ≡ self.old ++ word.now }
    {
        self.held.push_str(word);
    }

    // Puts a space and a number in decimal.
    #[tactic(auto, using(crate::proofs::Putting::putting))]
    fn put_number(&mut self, n: u64)
        requires { Room self.old (32 ∷ digits 20 n) }
        ensures { self.new ≡ self.old ++ (32 ∷ digits 20 n) }
    {
        let mut decimal = Buffer::new();
        self.put(" ");
        self.put(decimal.format(n));
    }

    // Puts numbers, a space before each.
    fn put_numbers(&mut self, list: &[u64])
        requires { Room self.old (numbers list.now) }
        ensures { self.new ≡ self.old ++ numbers list.now }
    {
        for &n in list {
            self.put_number(n);
        }
    }

    // Puts a word, numbers and the end of the line.
    fn put_line(&mut self, word: &str, list: &[u64])
        requires { Room self.old (line_text word.now list.now) }
        ensures { self.new ≡ self.old ++ line_text word.now list.now }
    {
        self.put(word);
        self.put_numbers(list);
        self.put("\n");
    }

    // Puts the line of a hop: its number, and backlog and delay there.
    #[tactic(auto, unfolding(meaning::specs::Route::bytes, meaning::specs::Route::hop_text))]
    pub(crate) fn put_hop(&mut self, number: u64, backlog: u64, delay: u64)
        requires { Room self.old (hop_text number (figures backlog delay)) }
        ensures { self.new ≡ self.old ++ hop_text number (figures backlog delay) }
    {
        self.put_line("hop", &[number, backlog, delay]);
    }

    // Puts the line of the route.
    #[tactic(auto, unfolding(meaning::specs::Route::bytes, meaning::specs::Route::route_text))]
    pub(crate) fn put_route(&mut self, backlog: u64, delay: u64)
        requires { Room self.old (route_text (figures backlog delay)) }
        ensures { self.new ≡ self.old ++ route_text (figures backlog delay) }
    {
        self.put_line("route", &[backlog, delay]);
    }

    // Puts the line of a refusal in place of what is put: the number, and which profile is refused.
    pub(crate) fn refuse(&mut self, refusal: Refusal, profile: u64)
        ensures { self.new ≡ refused_text (number (line_of refusal)) profile }
    {
        self.held.clear();
        self.put("refused");
        self.put_number(refusal.into());
        self.put_line(" at", &[profile]);
    }
}
