//! Listings as JSON. The expected lines are worked out by hand, and each test of a kind of object
//! has all of its keys.
use super::words;
use listing_json::list;
use piece_listing::verdict::RunFault;
use std::alloc::Global;
use std::process::Abort;
use std::test::Fail;

/// The arguments of the program, an input, its listing, and whether a line is not of a piece.
type Row<'a> = (&'a [&'a str], &'a [u8], &'a str, bool);

const PIECES: &[Row<'static>] = &[
    (&["format"], b"", "", false),
    (
        &["format"],
        b"a\n\"\\}}\x01",
        "{\"kind\":\"text\",\"text\":\"a\\n\\\"\\\\\"}\n\
         {\"kind\":\"text\",\"text\":\"}\\u0001\"}\n",
        false,
    ),
    (
        &["format", "--literal"],
        b"\"{}\"\n",
        "{\"kind\":\"placeholder\",\"position\":{\"kind\":\"implicit\",\"index\":0},\
         \"position_span\":{\"start\":2,\"end\":2},\"format\":{\"fill\":null,\"fill_span\":null,\
         \"align\":null,\"sign\":null,\"alternate\":false,\"zero_pad\":false,\"debug_hex\":null,\
         \"precision\":null,\"precision_span\":null,\"width\":null,\"width_span\":null,\
         \"ty\":\"\",\"ty_span\":null}}\n",
        false,
    ),
    (
        &["format"],
        b"{a:*^+#08.n$X?}",
        "{\"kind\":\"placeholder\",\"position\":{\"kind\":\"name\",\"name\":\"a\"},\
         \"position_span\":{\"start\":2,\"end\":3},\"format\":{\"fill\":\"*\",\
         \"fill_span\":{\"start\":4,\"end\":5},\"align\":\"center\",\"sign\":\"plus\",\
         \"alternate\":true,\"zero_pad\":true,\"debug_hex\":\"upper\",\
         \"precision\":{\"kind\":\"name\",\"name\":\"n\",\"span\":{\"start\":11,\"end\":12}},\
         \"precision_span\":{\"start\":10,\"end\":13},\
         \"width\":{\"kind\":\"number\",\"value\":8},\"width_span\":{\"start\":9,\"end\":10},\
         \"ty\":\"?\",\"ty_span\":null}}\n",
        false,
    ),
    (
        &["format"],
        b"{7:<-1$.*e}",
        "{\"kind\":\"placeholder\",\"position\":{\"kind\":\"index\",\"index\":7},\
         \"position_span\":{\"start\":2,\"end\":3},\"format\":{\"fill\":null,\"fill_span\":null,\
         \"align\":\"left\",\"sign\":\"minus\",\"alternate\":false,\"zero_pad\":false,\
         \"debug_hex\":null,\"precision\":{\"kind\":\"star\",\"index\":0},\
         \"precision_span\":{\"start\":8,\"end\":10},\
         \"width\":{\"kind\":\"index\",\"index\":1},\"width_span\":{\"start\":6,\"end\":8},\
         \"ty\":\"e\",\"ty_span\":{\"start\":10,\"end\":11}}}\n",
        false,
    ),
];

/// The listing of a placeholder `{}` that is the argument 0.
const PLAIN: &str = "{\"kind\":\"placeholder\",\"position\":{\"kind\":\"implicit\",\"index\":0},\
    \"position_span\":{\"start\":2,\"end\":2},\"format\":{\"fill\":null,\"fill_span\":null,\
    \"align\":null,\"sign\":null,\"alternate\":false,\"zero_pad\":false,\"debug_hex\":null,\
    \"precision\":null,\"precision_span\":null,\"width\":null,\"width_span\":null,\
    \"ty\":\"\",\"ty_span\":null}}\n";

/// The listing of the fault in `{}}`.
const FAULT: &str = "{\"kind\":\"fault\",\"id\":\"unmatched-closing-brace\",\
    \"description\":\"unmatched `}` found\",\
    \"note\":\"if you intended to print `}`, you can escape it using `}}`\",\
    \"label\":\"unmatched `}`\",\"span\":{\"start\":3,\"end\":4},\"secondary_label\":null,\
    \"suggestion\":null}\n";

/// The listing of the arguments that `{}` leaves unused of `2,w`.
const UNUSED: &str = "{\"kind\":\"unused-index\",\"index\":1}\n\
    {\"kind\":\"unused-name\",\"name\":\"w\"}\n";

/// The listing of the argument that `{}` needs of none.
const MISSING: &str = "{\"kind\":\"missing-index\",\"index\":0}\n";

/// The listing of the input is this one, unless memory runs out.
fn check(
    rt: &impl Abort,
    alloc: Global,
    list_of: &[&str],
    input: &[u8],
    lines: &str,
    has_ends: bool,
) -> Result<(), Fail> {
    let words = words(alloc, list_of)?;
    match list(alloc, input, words.as_slice()) {
        Ok(listing) => {
            assert_eq!(rt; listing.bytes.as_slice(), lines.as_bytes());
            assert_eq!(rt; listing.has_ends, has_ends);
        }
        Err(fault) => assert_eq!(rt; fault, RunFault::Memory),
    }
    Ok(())
}

#[test]
fn lists_pieces_as_json(rt: HostRuntime) -> Result<(), Fail> {
    for (words, input, lines, has_ends) in PIECES {
        check(&rt, rt.alloc(), words, input, lines, *has_ends)?;
    }
    Ok(())
}

/// The lines of the second list come after those of the placeholder.
#[test]
fn lists_faults_and_a_report_after_a_piece(rt: HostRuntime) -> Result<(), Fail> {
    let alloc = rt.alloc();
    let rows: [(&[&str], &[u8], &str); 3] = [
        (&["format", "--literal"], b"\"{}}\"", FAULT),
        (&["format", "--literal", "--args", "2,w"], b"\"{}\"", UNUSED),
        (&["format", "--literal", "--args", "0"], b"\"{}\"", MISSING),
    ];
    for (words, input, after) in rows.as_slice() {
        let mut lines = String::from_str(alloc, PLAIN)?;
        lines.push_str(after)?;
        check(&rt, alloc, words, input, lines.as_str(), true)?;
    }
    Ok(())
}
