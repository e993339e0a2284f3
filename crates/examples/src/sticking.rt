// The sticking panel, fed by a stream at 2 rows and 4 columns: each example is the bytes, and what the panel then
// shows.
use crate::trials::{each_shows, new, shows};
use std::test::Fail;
use sticking_panel::model::Sticking;

#[test]
fn streams(rt: HostRuntime) -> Result<(), Fail> {
    each_shows::<Sticking>(
        &rt,
        &[
            // a letter in the last column leaves the cursor there, and the next one overwrites it
            (
                2,
                4,
                "abcd",
                "read 4\n|abcd|\n|    |\nat 0 3\npen plain\nready\n",
            ),
            (
                2,
                4,
                "abcdef",
                "read 6\n|abcf|\n|    |\nat 0 3\npen plain\nready\n",
            ),
            // a line feed keeps the column, and on the last row does nothing
            (
                2,
                4,
                "ab\nc\nd",
                "read 6\n|ab  |\n|  cd|\nat 1 3\npen plain\nready\n",
            ),
            // a backspace in column 0 does nothing
            (
                2,
                4,
                "\x08ab\x08c",
                "read 5\n|ac  |\n|    |\nat 0 2\npen plain\nready\n",
            ),
            (
                2,
                4,
                "abcd\x08x",
                "read 6\n|abxd|\n|    |\nat 0 3\npen plain\nready\n",
            ),
            (
                2,
                4,
                "ab\rc",
                "read 4\n|cb  |\n|    |\nat 0 1\npen plain\nready\n",
            ),
            // 0Ch wipes all
            (
                2,
                4,
                "ab\nc\x0Cd",
                "read 6\n|d   |\n|    |\nat 0 1\npen plain\nready\n",
            ),
            // ESC is no more than another control byte that does nothing
            (
                2,
                4,
                "a\x1B[Cb",
                "read 5\n|a[Cb|\n|    |\nat 0 3\npen plain\nready\n",
            ),
            (
                2,
                4,
                "a\x00\x0B\x0E\x1A\x1E\x7Fb",
                "read 8\n|ab  |\n|    |\nat 0 2\npen plain\nready\n",
            ),
        ],
    )?;
    let mut panel = new::<Sticking>(rt.alloc(), 2, 4)?;
    shows(
        &rt,
        &mut panel,
        b"a\x80\xFFb",
        "read 4\n|ab  |\n|    |\nat 0 2\npen plain\nready\n",
    )
}
