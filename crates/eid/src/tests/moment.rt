//! A command that the chip handled, as a moment of its own.
use super::{ACCESS, image};
use eid_cells::MemoryEeprom;
use eid_chip::{Chip, Handled};
use eid_copro::{Coprocessor, ModelCoprocessor};
use eid_model::{Input, Moment, trace_text};
use std::test::Fail;

#[test]
fn a_handled_command_is_a_moment_with_the_text_of_a_trace(rt: HostRuntime) -> Result<(), Fail> {
    let alloc = rt.alloc();
    let bytes = image(&rt, ACCESS)?;
    assert!(rt; bytes.len() == 65_536);
    let mut cells = MemoryEeprom::new(bytes);
    let mut copro = ModelCoprocessor::new(alloc, 0);
    copro.make_room(2)?;
    let mut chip = Chip::new();
    assert!(rt; chip.power_on(&mut cells).is_ok());
    let command = [0x00, 0xb0, 0x9c, 0x00, 0x00];
    let Handled::Answered {
        plain,
        finished,
        rule,
        answer,
        sent,
    } = chip.handle(&command, &mut cells, &mut copro)
    else {
        return Err("the chip is silent".into());
    };
    let moment = Moment {
        input: Input::Apdu(Vec::from_slice(alloc, &command)?),
        plain,
        asks: Vec::new(alloc),
        finished,
        rule,
        answer: Some(answer),
        sent: Some(sent),
    };
    let trace =
        b"apdu 00b09c0000\n plain 00 b0 9c00 - 256\n finished 0\n rule 0\n answer 31009000\n sent 31009000\n";
    assert!(rt; trace_text(alloc, &moment)?.as_slice() == trace.as_slice());
    Ok(())
}
