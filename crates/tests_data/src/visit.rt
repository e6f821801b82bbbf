//! A walk with a visitor of the test's own.

use puffin_data::data::{Form, RawScope, Visitor, walk_with};
use puffin_data::{Error, Result};
use tests_support::samples::THREE_SCOPES;

/// The id of each scope that was taken, and how many scopes are around it. Its contract says nothing of them.
#[derive(Drop)]
struct Taken {
    scopes: Vec<(u32, usize)>,
}

impl<'s> Visitor<'s> for Taken {
    type Within = usize;

    ghost takes = { λ _ _ _. Unit {0} };

    ghost refuses = { λ _ _ _. Unit {0} };

    ghost stands_for = { λ _ _ _. Unit {0} };

    ghost takes_none = { λ _. tt {0} };

    ghost takes_more = { λ _ _ _ _ _ _ _. tt {0} };

    ghost still_stands = { λ _ _ _ _ _ _ _. tt {0} };

    fn enter(&mut self, around: usize, scope: &RawScope<'s>) -> Result<usize> {
        if self.scopes.push((scope.id, around)).is_err() {
            return Err(Error::Memory);
        }
        Ok(around.saturating_add(1))
    }
}

#[test]
fn a_visitor_takes_each_scope_in_order(rt: HostRuntime) {
    let mut taken = Taken {
        scopes: Vec::new(rt.alloc()),
    };
    let mut tries = 99;
    walk_with(
        rt.alloc(),
        Form::Short,
        &THREE_SCOPES,
        &mut taken,
        0,
        &mut tries,
    )
    .expect(&rt, "scopes");
    assert!(rt; taken.scopes.as_slice() == [(1, 0), (2, 1), (3, 1)].as_slice());
    assert!(rt; tries == 3);
}
