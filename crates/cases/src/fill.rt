// Places that are filled by a rule.
ghost use Rattle.std.specs.Prelude.{◌+◌, ◌*◌, ◌/◌, ◌%◌, ◌≡◌, pos, ◌-ℤ◌};

use crate::words::{place, word};
use printing::places::front;
use std::io::Read;

// What is made of a number: divided, cut to a span, so many steps from the base. Divisor and span are kept less one.
#[derive(Clone, Copy)]
struct Rule {
    divisor: u32,
    span: u32,
    base: u32,
    step: u32,
}

impl Rule {
    fn value(self, x: u64) -> i32
        ensures { result ≡ pos ((self.base + x / (self.divisor + 1) % (self.span + 1) * self.step) % 4294967296) -ℤ pos 2147483648 }
    {
        let part = x / (u64::from(self.divisor) + 1) % (u64::from(self.span) + 1);
        place(((u64::from(self.base) + part * u64::from(self.step)) % 4294967296) as u32)
    }
}

// Each number is made of the one before it.
fn each<F: Fn(u64) -> u64>(places: &mut [i32], rule: Rule, before: u64, next: F)
    requires { F.IsAlwaysCallable next }
{
    let mut x = before;
    for z in places {
        x = next(x);
        *z = rule.value(x);
    }
}

// Fills the places from one on up to another, by the rule that the next numbers give.
pub fn fill(cases: &mut impl Read, s: &mut [i32]) {
    let from = word(cases) as usize;
    let end = front(word(cases) as usize, s);
    let drawn = word(cases) == 1;
    let before = u64::from(word(cases));
    let rule = Rule {
        divisor: word(cases),
        span: word(cases),
        base: word(cases),
        step: word(cases),
    };
    let places = &mut s[from.min(end)..end];
    // The numbers are a generator's, or count on.
    if drawn {
        each(
            places,
            rule,
            before,
            |x| (x % 2147483648 * 1103515245 + 12345) % 2147483648,
        );
    } else {
        each(places, rule, before, |x| (x % 2147483648 + 1) % 2147483648);
    }
}
