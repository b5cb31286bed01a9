// Examples of loading and writing a record that no contract spells out byte by byte.
#![tactic(auto)]

#[cfg(test)]
mod tests {
    use load::load;
    use load::refusal::Refusal;
    use std::test::Fail;
    use writer::write;

    // One block that loops on itself up to ten times.
    const RECORD: &[u8] =
        b"line=16\nslots=4\nhit=1\npenalty=9\nwindow=1000\nblocks=2\nblock=0,2,0\nblock=8,4,7\nloops=1\nloop=1,1,10\nedges=2\nedge=0,1\nedge=1,1\n";

    #[test]
    fn a_record_is_read(rt: HostRuntime) -> Result<(), Fail> {
        let Ok(task) = load(rt.alloc(), RECORD) else {
            return Err(Fail::new("refused"));
        };
        assert_eq!(rt; task.record.header.geometry.slots, 4);
        assert_eq!(rt; task.record.header.penalty, 9);
        assert!(rt; task.record.blocks.len() == 2);
        assert_eq!(rt; task.record.blocks[1].cycles, 7);
        assert!(rt; task.record.loops.len() == 1);
        assert_eq!(rt; task.record.loops[0].limit, 10);
        assert!(rt; task.record.edges.len() == 2);
        assert_eq!(rt; task.record.edges[1].from, 1);
        Ok(())
    }

    #[test]
    fn the_rest_of_a_buffer_keeps_its_bytes(rt: HostRuntime) -> Result<(), Fail> {
        let Ok(task) = load(rt.alloc(), RECORD) else {
            return Err(Fail::new("refused"));
        };
        let mut out = [7u8; 200];
        let Ok(length) = write(&task.record, &mut out) else {
            return Err(Fail::new("too short"));
        };
        assert!(rt; &out[..length] == RECORD);
        assert!(rt; length < 200);
        assert_eq!(rt; out[length], 7);
        assert_eq!(rt; out[199], 7);
        Ok(())
    }

    #[test]
    fn a_buffer_one_byte_too_short_is_left_alone(rt: HostRuntime) -> Result<(), Fail> {
        let Ok(task) = load(rt.alloc(), RECORD) else {
            return Err(Fail::new("refused"));
        };
        let mut out = vec![in rt.alloc(); 7u8; RECORD.len() - 1]?;
        match write(&task.record, &mut out) {
            Ok(_) => Err(Fail::new("it fits")),
            Err(short) => {
                assert_eq!(rt; short.needed, RECORD.len());
                assert!(rt; !out.contains(&b'l'));
                Ok(())
            }
        }
    }

    #[test]
    fn a_refusal_is_printed_as_one_line(rt: HostRuntime) -> Result<(), Fail> {
        let Err(refusal) = load(rt.alloc(), b"line=16\nslots=3\n") else {
            return Err(Fail::new("accepted"));
        };
        assert_eq!(rt; refusal.number(), 4);
        assert_eq!(rt; refusal.layer(), "text");
        assert_eq!(rt; refusal.place(), 2);
        assert_eq!(rt;
            format!(in rt.alloc(); "{refusal}")?.as_str(),
            "refused=4,text,2"
        );
        assert_eq!(rt;
            Refusal::NoMemory.to_string(rt.alloc())?.as_str(),
            "refused=0,memory,0"
        );
        Ok(())
    }
}
