//! A stack that is never empty.

use crate::expect::same;
use markdown_parts::nest::Nest;
use std::alloc::AllocError;

#[test]
fn the_last_value_in_the_outermost_is_the_innermost(rt: HostRuntime) -> Result<(), AllocError> {
    let mut nest = Nest {
        outermost: 'a',
        inner: Vec::new(rt.alloc()),
    };
    same(&rt, *nest.innermost(), 'a');
    *nest.innermost_mut() = 'b';
    nest.inner.push('c')?;
    nest.inner.push('d')?;
    same(&rt, *nest.innermost(), 'd');
    *nest.innermost_mut() = 'e';
    same(&rt, nest.inner.pop(), Some('e'));
    same(&rt, nest.outermost, 'b');
    same(&rt, nest.into_innermost(), 'c');
    Ok(())
}
