// The deferred-wrap panel, fed by a stream: each example is a size, the bytes, and what the panel then shows.
use crate::trials::{each_shows, new, shows};
use dec_panel::model::Dec;
use std::test::Fail;

#[test]
fn last_column(rt: HostRuntime) -> Result<(), Fail> {
    each_shows::<Dec>(
        &rt,
        &[
            // a letter in the last column holds the cursor there
            (
                2,
                4,
                "abcd",
                "read 4\n|abcd|\n|    |\nat 0 3 held\npen plain\nready\n",
            ),
            // the next letter goes to the next row
            (
                2,
                4,
                "abcde",
                "read 5\n|abcd|\n|e   |\nat 1 1\npen plain\nready\n",
            ),
            // and scrolls on the bottom row
            (
                2,
                4,
                "abcdefghi",
                "read 9\n|efgh|\n|i   |\nat 1 1\npen plain\nready\n",
            ),
            (1, 2, "abc", "read 3\n|c |\nat 0 1\npen plain\nready\n"),
        ],
    )
}

#[test]
fn what_clears_the_mark(rt: HostRuntime) -> Result<(), Fail> {
    each_shows::<Dec>(
        &rt,
        &[
            // a carriage return
            (
                1,
                4,
                "abcd\rx",
                "read 6\n|xbcd|\nat 0 1\npen plain\nready\n",
            ),
            // a backspace, which also goes a column to the left
            (
                1,
                4,
                "abcd\x08x",
                "read 6\n|abxd|\nat 0 3\npen plain\nready\n",
            ),
            // a line feed, which keeps the column
            (
                2,
                4,
                "abcd\nx",
                "read 6\n|abcd|\n|   x|\nat 1 3 held\npen plain\nready\n",
            ),
            // a cursor motion, even one that the edge stops
            (
                1,
                4,
                "abcd\x1B[Cx",
                "read 8\n|abcx|\nat 0 3 held\npen plain\nready\n",
            ),
            // a pen, an unknown end and a voided motion do not
            (
                2,
                4,
                "abcd\x1B[m\x1B[K\x1B[ Cx",
                "read 15\n|abcd|\n|x   |\nat 1 1\npen plain\nready\n",
            ),
        ],
    )
}

#[test]
fn control_bytes(rt: HostRuntime) -> Result<(), Fail> {
    each_shows::<Dec>(
        &rt,
        &[
            // at the edges: a backspace stays, a line feed scrolls
            (
                2,
                3,
                "\x08a\n\nb",
                "read 5\n|   |\n| b |\nat 1 2\npen plain\nready\n",
            ),
            // they act within a sequence, which goes on
            (
                1,
                12,
                "a\x1B[1\r0Cb",
                "read 8\n|a         b |\nat 0 11\npen plain\nready\n",
            ),
            // ESC within a sequence begins anew, and 18h ends it
            (
                1,
                4,
                "\x1B[3\x1B[Cx",
                "read 7\n| x  |\nat 0 2\npen plain\nready\n",
            ),
            (
                1,
                4,
                "\x1B[3\x18C",
                "read 5\n|C   |\nat 0 1\npen plain\nready\n",
            ),
            // a byte after ESC that opens nothing is not printed
            (1, 4, "\x1BMa", "read 3\n|a   |\nat 0 1\npen plain\nready\n"),
        ],
    )?;
    // all others do nothing, within a sequence too
    shows(
        &rt,
        &mut new::<Dec>(rt.alloc(), 1, 4)?,
        b"a\x00\x07\x09\x7F\x80\xFFb",
        "read 8\n|ab  |\nat 0 2\npen plain\nready\n",
    )?;
    shows(
        &rt,
        &mut new::<Dec>(rt.alloc(), 1, 4)?,
        b"\x1B\x7F[\xFF2\x00Cx",
        "read 8\n|  x |\nat 0 3\npen plain\nready\n",
    )
}

#[test]
fn sequences(rt: HostRuntime) -> Result<(), Fail> {
    each_shows::<Dec>(
        &rt,
        &[
            // missing and 0 count as 1
            (
                1,
                4,
                "\x1B[Ca\x1B[0Cb",
                "read 9\n| a b|\nat 0 3 held\npen plain\nready\n",
            ),
            (
                2,
                4,
                "\x1B[;3Ha\x1B[2Hb",
                "read 11\n|  a |\n|b   |\nat 1 1\npen plain\nready\n",
            ),
            // motions stop at the edge
            (
                2,
                4,
                "\x1B[9B\x1B[9Ca\x1B[9A\x1B[9Db",
                "read 18\n|b   |\n|   a|\nat 0 1\npen plain\nready\n",
            ),
            (
                2,
                4,
                "\x1B[99;99Ha",
                "read 9\n|    |\n|   a|\nat 1 3 held\npen plain\nready\n",
            ),
            // any other byte 20h to 3Fh voids a sequence, its later digits too
            (
                1,
                4,
                "\x1B[?2Ca\x1B[2 Cb\x1B[2:Cc",
                "read 18\n|abc |\nat 0 3\npen plain\nready\n",
            ),
            // J with 2 blanks all and keeps the place, and with another does nothing
            (
                1,
                4,
                "ab\x1B[2;7Jc",
                "read 9\n|  c |\nat 0 3\npen plain\nready\n",
            ),
            (
                1,
                4,
                "ab\x1B[1J\x1B[Jc",
                "read 10\n|abc |\nat 0 3\npen plain\nready\n",
            ),
            // half read
            (1, 2, "\x1B", "read 1\n|  |\nat 0 0\npen plain\nreading\n"),
            (1, 2, "\x1B[4", "read 3\n|  |\nat 0 0\npen plain\nreading\n"),
        ],
    )
}

#[test]
fn pens(rt: HostRuntime) -> Result<(), Fail> {
    each_shows::<Dec>(
        &rt,
        &[
            // m takes its parameters in order, and each cell keeps the pen that drew it
            (
                1,
                4,
                "\x1B[1;7ma\x1B[4mb\x1B[1;0;5mc\x1B[md",
                "read 25\n|abcd|\n|9B40|\nat 0 3 held\npen plain\nready\n",
            ),
            (
                1,
                2,
                "\x1B[7;1;5;4m",
                "read 10\n|  |\nat 0 0\npen bold underscore blink reverse\nready\n",
            ),
            // the first eight parameters count
            (
                1,
                2,
                "\x1B[;;;;;;;1m",
                "read 11\n|  |\nat 0 0\npen bold\nready\n",
            ),
            (
                1,
                2,
                "\x1B[;;;;;;;;1m",
                "read 12\n|  |\nat 0 0\npen plain\nready\n",
            ),
            // a value above 999 counts as 999, and leading zeros do not count
            (
                1,
                2,
                "\x1B[65537m\x1B[004m",
                "read 14\n|  |\nat 0 0\npen underscore\nready\n",
            ),
            // blanks that appear have pen 0, whatever the pen now set
            (
                1,
                2,
                "\x1B[1mab\n",
                "read 7\n|  |\nat 0 1\npen bold\nready\n",
            ),
        ],
    )
}
