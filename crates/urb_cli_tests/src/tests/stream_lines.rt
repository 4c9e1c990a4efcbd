//! The values of the command lines of `publish` and `follow`.

use std::test::Fail;
use urb_options::{EntryForm, Errand, Line, NodeAddress, parse_line};
use urb_terminal::Terminal;

#[test]
fn a_publish_has_its_values(rt: HostRuntime) -> Result<(), Fail> {
    let terminal = Terminal::new(rt.alloc(), &[], b"", true);
    for (text, wanted) in [([].as_slice(), None), (&["a b"], Some("a b"))] {
        let words = ["urbd", "publish", "--port", "7411", "--client", "7"];
        let mut line = Vec::from_slice(rt.alloc(), &words)?;
        line.extend_from_slice(text)?;
        match parse_line(&terminal, rt.alloc(), line.as_slice()) {
            Ok(Line::Errand(Errand::Publish(publishing))) => {
                assert_eq!(rt;
                    (publishing.at, publishing.client),
                    (NodeAddress::Port(7411), 7)
                );
                assert_eq!(rt; publishing.text, wanted);
            }
            _ => return Err("messages to publish")?,
        }
    }
    Ok(())
}

#[test]
fn a_follow_has_its_values(rt: HostRuntime) -> Result<(), Fail> {
    let terminal = Terminal::new(rt.alloc(), &[], b"", true);
    for (options, from, form) in [
        ([].as_slice(), 1, EntryForm::Text),
        (&["--from", "9"], 9, EntryForm::Text),
        (&["--format", "text"], 1, EntryForm::Text),
        (&["--format", "hex"], 1, EntryForm::Hex),
        (&["--from", "4", "--format", "json"], 4, EntryForm::Json),
    ] {
        let mut line = Vec::from_slice(rt.alloc(), &["urbd", "follow", "--port", "7411"])?;
        line.extend_from_slice(options)?;
        match parse_line(&terminal, rt.alloc(), line.as_slice()) {
            Ok(Line::Errand(Errand::Follow(following))) => {
                assert_eq!(rt;
                    (following.at, following.from),
                    (NodeAddress::Port(7411), from)
                );
                assert_eq!(rt; following.form, form);
            }
            _ => return Err("a log to follow")?,
        }
    }
    Ok(())
}
