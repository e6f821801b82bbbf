//! Macros that make guards. They take these arguments, in this order:
//!
//! | argument | is |
//! |---|---|
//! | `guard` | the name of the guard, in the macros that bind one |
//! | `condition` | in the `_if` forms, a `bool` that is evaluated only while the switch is on |
//! | `profiler` | a `&mut` to the thread's profiler, or a call that returns one, such as `outer.profiler()` |
//! | `switch` | the [`crate::Switch`] |
//! | `ids` | a `&` to the ids that all threads draw from |
//! | `site` | the [`crate::Site`] of this place, and of no other |
//! | `function` | the function's name |
//! | `name` | the name of a scope within a function: a `&'static str`, a `String` or a `CowStr`; evaluated only until the place has an id |
//! | `text` | a text for this one run of the scope; may be left out |
//!
//! If the switch is off or the condition is false, the guard has no scope. If registering or beginning the scope fails, it has
//! none either, and its `refusal` returns the error.

/// Begins a scope as [`profile_function`](crate::profile_function) does, if the condition holds, and binds its guard.
#[macro_export]
macro_rules! profile_function_if {
    ($guard:ident, $condition:expr, $profiler:expr, $switch:expr, $ids:expr, $site:expr, $function:expr $(,)?) => {
        $crate::profile_function_if!(
            $guard, $condition, $profiler, $switch, $ids, $site, $function, ""
        );
    };
    ($guard:ident, $condition:expr, $profiler:expr, $switch:expr, $ids:expr, $site:expr, $function:expr, $text:expr $(,)?) => {
        let mut $guard = {
            let profiler = &mut *$profiler;
            if $switch.are_scopes_on() && $condition {
                let id = match $site.id() {
                    Some(id) => Ok(id),
                    None => $site.function_id(profiler, $ids, $function),
                };
                $crate::ProfilerScope::open(profiler, id, $text)
            } else {
                $crate::ProfilerScope::off(profiler)
            }
        };
    };
}

/// Begins a scope of the whole function, and binds its guard to a variable.
///
/// ```
/// profile_function!(whole, thread, switch, ids, places.draw, "draw");
/// ```
#[macro_export]
macro_rules! profile_function {
    ($guard:ident, $($rest:tt)*) => {
        $crate::profile_function_if!($guard, true, $($rest)*);
    };
}

/// Begins a scope as [`profile_scope_custom`](crate::profile_scope_custom) does, if the condition holds, and returns its guard.
#[macro_export]
macro_rules! profile_scope_custom_if {
    ($condition:expr, $profiler:expr, $switch:expr, $ids:expr, $site:expr, $function:expr, $name:expr $(,)?) => {
        $crate::profile_scope_custom_if!(
            $condition, $profiler, $switch, $ids, $site, $function, $name, ""
        )
    };
    ($condition:expr, $profiler:expr, $switch:expr, $ids:expr, $site:expr, $function:expr, $name:expr, $text:expr $(,)?) => {{
        let profiler = &mut *$profiler;
        if $switch.are_scopes_on() && $condition {
            let id = match $site.id() {
                Some(id) => Ok(id),
                None => {
                    let name = std::borrow::CowStr::from($name);
                    $site.named_id(profiler, $ids, $function, name)
                }
            };
            $crate::ProfilerScope::open(profiler, id, $text)
        } else {
            $crate::ProfilerScope::off(profiler)
        }
    }};
}

/// Begins a scope with a name, and returns its guard. Bind it to a variable: a guard that isn't bound ends its scope at once.
#[macro_export]
macro_rules! profile_scope_custom {
    ($($rest:tt)*) => {
        $crate::profile_scope_custom_if!(true, $($rest)*)
    };
}

/// Begins a scope with a name, and binds its guard to a variable.
///
/// ```
/// let profiler = whole.profiler();
/// profile_scope!(row, profiler, switch, ids, places.row, "draw", "row");
/// ```
#[macro_export]
macro_rules! profile_scope {
    ($guard:ident, $($rest:tt)*) => {
        let mut $guard = $crate::profile_scope_custom_if!(true, $($rest)*);
    };
}

/// Begins a scope as [`profile_scope`](crate::profile_scope) does, if the condition holds, and binds its guard.
#[macro_export]
macro_rules! profile_scope_if {
    ($guard:ident, $($rest:tt)*) => {
        let mut $guard = $crate::profile_scope_custom_if!($($rest)*);
    };
}
