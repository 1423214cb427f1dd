ghost use Rattle.std.specs.Prelude.{◌≡◌, ◌++◌, ◌∷◌, [], IfOk, OnOk, map, flat_map, string_bytes};
ghost use Rattle.vkg_lists.specs.Lists.{without_last};
ghost use Rattle.vkg_terms.specs.DotSegments.{closed, piece_text, with_segment};
ghost use Rattle.vkg_terms.specs.Resolve.{is_dot as dot, is_dots as dots, remove_dots as without, segments as segments_of, without_dots as kept_of};

use std::alloc::{AllocError, Global};
use vkg_base::Memory;

/// A piece of the output: a segment, and whether a slash stands before it.
#[derive(Clone, Copy)]
struct Piece<'a> {
    slash: bool,
    segment: &'a str,
}

/// The path without its dot segments (RFC 3986, 5.2.4).
#[tactic(auto, using(crate::proofs::DotSegmentsLemmas::flat_concat))]
pub(crate) fn remove_dots(alloc: Global, path: &str) -> Result<String, Memory>
    ensures { IfOk result (λ s. string_bytes s ≡ without path.now) }
{
    let segments = segments(alloc, path)?;
    let pieces = without_dots(alloc, segments.as_slice())?;
    let mut out = String::new(alloc);
    push_pieces(&mut out, pieces.as_slice())?;
    Ok(out)
}

fn segments(alloc: Global, path: &str) -> Result<Vec<&str>, AllocError>
    ensures { IfOk result (λ v. map (λ s. s.now) v.items ≡ segments_of path.now) }
{
    path.split('/').collect(alloc)
}

fn without_dots<'a>(alloc: Global, segments: &[&'a str]) -> Result<Vec<Piece<'a>>, Memory>
    ensures { IfOk result (λ v. map piece_text v.items ≡ kept_of (map (λ s. s.now) segments.now)) }
{
    let mut pieces = Vec::new(alloc);
    let mut started = false;
    for (i, segment) in segments.iter().enumerate() {
        let segment = *segment;
        if started {
            push_segment(&mut pieces, segment, i == segments.len() - 1)?;
            continue;
        }
        if is_dot(segment) || is_dots(segment) {
            continue;
        }
        pieces.push(Piece {
            slash: false,
            segment,
        })?;
        started = true;
    }
    Ok(pieces)
}

fn push_segment<'a>(
    pieces: &mut Vec<Piece<'a>>,
    segment: &'a str,
    is_last: bool,
) -> Result<(), Memory>
    ensures { OnOk result (map piece_text pieces.new.items ≡ with_segment (map piece_text pieces.old.items) segment.now is_last) }
{
    if is_dot(segment) {
        return close(pieces, is_last);
    }
    if is_dots(segment) {
        drop_last(pieces);
        return close(pieces, is_last);
    }
    pieces.push(Piece {
        slash: true,
        segment,
    })?;
    Ok(())
}

fn drop_last(pieces: &mut Vec<Piece<'_>>)
    ensures { map piece_text pieces.new.items ≡ without_last (map piece_text pieces.old.items) }
{
    pieces.pop();
}

fn close(pieces: &mut Vec<Piece<'_>>, is_last: bool) -> Result<(), Memory>
    ensures { OnOk result (map piece_text pieces.new.items ≡ closed (map piece_text pieces.old.items) is_last) }
{
    if is_last {
        pieces.push(Piece {
            slash: true,
            segment: "",
        })?;
    }
    Ok(())
}

fn is_dot(segment: &str) -> bool
    ensures { result ≡ dot segment.now }
{
    segment == "."
}

fn is_dots(segment: &str) -> bool
    ensures { result ≡ dots segment.now }
{
    segment == ".."
}

fn push_pieces(out: &mut String, pieces: &[Piece<'_>]) -> Result<(), Memory>
    ensures { OnOk result (string_bytes out.new ≡ string_bytes out.old ++ flat_map piece_text pieces.now) }
{
    for piece in pieces {
        push_piece(out, *piece)?;
    }
    Ok(())
}

fn push_piece(out: &mut String, piece: Piece<'_>) -> Result<(), Memory>
    ensures { OnOk result (string_bytes out.new ≡ string_bytes out.old ++ piece_text piece.entry) }
{
    if piece.slash {
        out.push('/')?;
    }
    out.push_str(piece.segment)?;
    Ok(())
}
