// The short-code panel, fed by a stream: each example is a size, the bytes, and what the panel then shows.
use crate::trials::{each_shows, new, shows};
use short_code_panel::model::ShortCode;
use std::test::Fail;

#[test]
fn last_column(rt: HostRuntime) -> Result<(), Fail> {
    each_shows::<ShortCode>(
        &rt,
        &[
            // a letter in the last column moves to the next row at once
            (
                2,
                4,
                "abcd",
                "read 4\n|abcd|\n|    |\nat 1 0\npen plain\nready\n",
            ),
            // so that a carriage return and a line feed then skip a row
            (
                2,
                4,
                "abcd\r\ne",
                "read 7\n|    |\n|e   |\nat 1 1\npen plain\nready\n",
            ),
            // the corner scrolls
            (
                2,
                4,
                "abcdefgh",
                "read 8\n|efgh|\n|    |\nat 1 0\npen plain\nready\n",
            ),
        ],
    )
}

#[test]
fn control_bytes(rt: HostRuntime) -> Result<(), Fail> {
    each_shows::<ShortCode>(
        &rt,
        &[
            // left, up and right stay at the edges
            (
                2,
                4,
                "\x08\x0Ba",
                "read 3\n|a   |\n|    |\nat 0 1\npen plain\nready\n",
            ),
            (
                2,
                4,
                "\x0C\x0C\x0C\x0C\x0Ca",
                "read 6\n|   a|\n|    |\nat 1 0\npen plain\nready\n",
            ),
            // a line feed keeps the column, and scrolls on the last row
            (
                2,
                4,
                "a\nb\nc",
                "read 5\n| b  |\n|  c |\nat 1 3\npen plain\nready\n",
            ),
            (
                2,
                4,
                "a\n\x0Bb",
                "read 4\n|ab  |\n|    |\nat 0 2\npen plain\nready\n",
            ),
            // a backspace goes left, a carriage return to column 0, 1Eh to the first place
            (
                2,
                4,
                "ab\x08c",
                "read 4\n|ac  |\n|    |\nat 0 2\npen plain\nready\n",
            ),
            (
                2,
                4,
                "ab\n\rc",
                "read 5\n|ab  |\n|c   |\nat 1 1\npen plain\nready\n",
            ),
            (
                2,
                4,
                "ab\nc\x1Ed",
                "read 6\n|db  |\n|  c |\nat 0 1\npen plain\nready\n",
            ),
            // others do nothing
            (
                2,
                4,
                "a\x00\x07\x09\x18\x7Fb",
                "read 7\n|ab  |\n|    |\nat 0 2\npen plain\nready\n",
            ),
        ],
    )?;
    let mut panel = new::<ShortCode>(rt.alloc(), 1, 4)?;
    shows(
        &rt,
        &mut panel,
        b"a\x80\xFFb",
        "read 4\n|ab  |\nat 0 2\npen plain\nready\n",
    )
}

#[test]
fn pens_and_wipe(rt: HostRuntime) -> Result<(), Fail> {
    each_shows::<ShortCode>(
        &rt,
        &[
            // 0Eh sets pen 1 and 0Fh pen 0, and each cell keeps the pen that drew it
            (
                1,
                4,
                "a\x0Eb\x0Fc",
                "read 5\n|abc |\n|0100|\nat 0 3\npen plain\nready\n",
            ),
            (1, 4, "\x0E", "read 1\n|    |\nat 0 0\npen bold\nready\n"),
            // blanks that appear have pen 0
            (
                1,
                4,
                "\x0Eabcd",
                "read 5\n|    |\nat 0 0\npen bold\nready\n",
            ),
            // 1Ah wipes all
            (
                1,
                4,
                "\x0Eab\x1A",
                "read 4\n|    |\nat 0 0\npen plain\nready\n",
            ),
        ],
    )
}

#[test]
fn addresses(rt: HostRuntime) -> Result<(), Fail> {
    each_shows::<ShortCode>(
        &rt,
        &[
            // ESC, =, 20h + row, 20h + column
            (
                2,
                4,
                "\x1B=!\x22x",
                "read 5\n|    |\n|  x |\nat 1 3\npen plain\nready\n",
            ),
            // a pair outside the panel moves nothing, and takes both bytes
            (
                2,
                4,
                "a\x1B=\x22 b",
                "read 6\n|ab  |\n|    |\nat 0 2\npen plain\nready\n",
            ),
            (
                2,
                4,
                "a\x1B= $b",
                "read 6\n|ab  |\n|    |\nat 0 2\npen plain\nready\n",
            ),
            (
                2,
                4,
                "a\x1B=~~b",
                "read 6\n|ab  |\n|    |\nat 0 2\npen plain\nready\n",
            ),
            // a byte after ESC other than = ends the sequence and is not printed
            (
                2,
                4,
                "\x1B[a",
                "read 3\n|a   |\n|    |\nat 0 1\npen plain\nready\n",
            ),
            // a byte below 20h ends a sequence and acts
            (
                2,
                4,
                "a\x1B\rb",
                "read 4\n|b   |\n|    |\nat 0 1\npen plain\nready\n",
            ),
            (
                2,
                4,
                "a\x1B=\nb",
                "read 5\n|a   |\n| b  |\nat 1 2\npen plain\nready\n",
            ),
            (
                2,
                4,
                "a\x1B=!\x08b",
                "read 6\n|b   |\n|    |\nat 0 1\npen plain\nready\n",
            ),
            (
                2,
                4,
                "\x1B=!\x00x",
                "read 5\n|x   |\n|    |\nat 0 1\npen plain\nready\n",
            ),
            // ESC within a sequence begins a new one
            (
                2,
                4,
                "\x1B=!\x1B= #x",
                "read 8\n|   x|\n|    |\nat 1 0\npen plain\nready\n",
            ),
            // 7Fh does nothing within a sequence, which goes on
            (
                2,
                4,
                "\x1B\x7F=\x7F!\x7F!x",
                "read 8\n|    |\n| x  |\nat 1 2\npen plain\nready\n",
            ),
            // half read
            (
                2,
                4,
                "\x1B",
                "read 1\n|    |\n|    |\nat 0 0\npen plain\nreading\n",
            ),
            (
                2,
                4,
                "\x1B=",
                "read 2\n|    |\n|    |\nat 0 0\npen plain\nreading\n",
            ),
            (
                2,
                4,
                "\x1B=!",
                "read 3\n|    |\n|    |\nat 0 0\npen plain\nreading\n",
            ),
        ],
    )
}
