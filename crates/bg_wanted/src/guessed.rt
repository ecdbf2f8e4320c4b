//! Values that are tried where a leaf isn't finished.
use crate::behind::values_behind;
use crate::class::number;
use crate::first::first_rows;
use crate::looked::Looked;
use crate::maps::all_selects;
use crate::row::{Row, Rows};
use crate::rows::leaf_rows;
use bg_scalar::{Scalar, Value};
use bg_term_table::{Around, Seen, Term, read_type};
use std::alloc::{AllocError, Global};

/// The same scalars, but for maps: each has its own number.
fn apart_maps(
    alloc: Global,
    around: Around<'_>,
    terms: &[Term],
    values: &[Scalar],
) -> Result<Vec<Scalar>, AllocError> {
    let mut made = Vec::new(alloc);
    for j in 0..values.len() {
        let place = number(j)?;
        let is_map = match read_type(around, terms, place) {
            Seen::Whole(t) => !t.maps.is_empty(),
            Seen::Map(_, _) => true,
        };
        if is_map {
            made.push(Scalar::Number(place as i128))?;
        } else {
            made.push(values[j])?;
        }
    }
    Ok(made)
}

/// The rows of terms and the values of incarnations and terms, where each map is what the selects that read it say, and nothing else of maps is
/// taken from the leaf. None where an argument leaves 128 bits.
pub fn guessed(
    alloc: Global,
    around: Around<'_>,
    terms: &[Term],
    values: &[Scalar],
) -> Result<(Vec<Row>, Vec<Value>), AllocError> {
    let apart = apart_maps(alloc, around, terms, values)?;
    let all = leaf_rows(alloc, around.incarnations.len(), terms, &apart)?;
    match all {
        Rows::Leave(_) => Ok((Vec::new(alloc), Vec::new(alloc))),
        Rows::NoRows => Ok((Vec::new(alloc), Vec::new(alloc))),
        Rows::Are(rows, met) => {
            let firsts = first_rows(alloc, &rows)?;
            let selects = all_selects(alloc, &rows)?;
            let count = number(around.incarnations.len())?;
            let looked = Looked {
                count,
                terms,
                rows: &rows,
                met: &met,
                firsts: &firsts,
                selects: &selects,
            };
            let values = values_behind(alloc, around, looked, &apart)?;
            Ok((rows, values))
        }
    }
}
