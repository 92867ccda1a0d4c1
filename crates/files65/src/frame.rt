//! How a program does what its command line asks for.

use crate::failure::Failure;
use crate::output::{Output, write_text};
use crate::placeholders::Placeholders;
use std::alloc::Global;
use usage65::{Request, RequestFault, words_of};

/// Does what the words of the process ask for, as `asked` reads them: writes the text about the program, or runs it by
/// `run`. Returns what the run returns, and the default after a text.
pub fn obey<A, T, R, F, G>(rt: &HostRuntime, asked: F, run: G) -> Result<T, Failure<R>>
where
    A: Drop,
    T: Default,
    F: FnOnce(Global, &[String]) -> Result<Request<A>, RequestFault>,
    G: FnOnce(&HostRuntime, &mut A) -> Result<T, Failure<R>>,
    requires asked { F.IsAlwaysCallable asked }
    requires run { G.IsAlwaysCallable run }
{
    // Messages to a closed standard error must not end up in the output file.
    let _placeholders = Placeholders::take(rt)?;
    let words = words_of(rt)?;
    match asked(rt.alloc(), &words)? {
        Request::Text(text) => {
            write_text(&mut Output::standard(rt), &text)?;
            Ok(T::default())
        }
        Request::Run(mut asked) => run(rt, &mut asked),
    }
}
