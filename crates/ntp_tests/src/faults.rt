use assertions::assert_equal;
use dts_base::{Field, Refused, WireCause};
use ntp_packet::Judged;
use std::test::Fail;
use time_provider::ProviderFault;

#[test]
fn faults_have_texts(rt: HostRuntime) -> Result<(), Fail> {
    let wrong = Refused {
        field: Field::NtpLength,
        offset: 47,
        cause: WireCause::Short,
    };
    let texts = [
        (ProviderFault::NoQuery, "no query is open"),
        (ProviderFault::Wrong(wrong), "ntp_length at octet 47: short"),
        (
            ProviderFault::Range { lo: -1, hi: 5 },
            "an end of the interval from -1 to 5 is out of range",
        ),
        (
            ProviderFault::Judged(Judged::Mode { found: 3 }),
            "mode 3 is not that of a server",
        ),
        (
            ProviderFault::Judged(Judged::Kiss { code: 0x5241_5445 }),
            "a kiss of code 52415445",
        ),
        (
            ProviderFault::Judged(Judged::Stratum { found: 16 }),
            "stratum 16 is above 15",
        ),
    ];
    for (fault, text) in texts {
        assert_equal!(rt; fault.to_string(rt.alloc())?.as_str(), text);
    }
    Ok(())
}
