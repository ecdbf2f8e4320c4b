//! Parts of flat lists.

/// So many items of a list, from a place on: numbers of 32 bits, of which there are many.
#[derive(Clone, Copy)]
pub struct Span {
    from: u32,
    len: u32,
}

/// The span of so many items from a place on. Where 32 bits don't hold these it stands behind every list's end.
pub fn span_of(from: usize, len: usize) -> Span {
    match (u32::try_from(from), u32::try_from(len)) {
        (Ok(from), Ok(len)) => Span { from, len },
        _ => Span {
            from: u32::MAX,
            len: u32::MAX,
        },
    }
}

/// The two numbers of a span: the place and how many.
pub fn numbers_of(span: Span) -> (u32, u32) {
    (span.from, span.len)
}

/// The span of these two numbers.
pub fn span_from(from: u32, len: u32) -> Span {
    Span { from, len }
}

/// The place of the first item.
pub fn begin_of(span: Span) -> usize {
    span.from as usize
}

/// How many items there are.
pub fn count_of(span: Span) -> usize {
    span.len as usize
}

/// The place behind the last item.
pub fn end_of(span: Span) -> usize {
    begin_of(span).saturating_add(count_of(span))
}

/// The items; none where the list ends before.
pub fn items<T>(list: &[T], span: Span) -> &[T] {
    match list.get(begin_of(span)..end_of(span)) {
        Some(part) => part,
        None => &[],
    }
}
