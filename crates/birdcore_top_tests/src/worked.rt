//! The worked run: its files, its report, and its words; and a run of two phases.
use outside_io::MemFile;
use std::alloc::Global;
use std::test::Fail;

pub const CONF: &str =
    "protocol bgp p1 { local as 65000; neighbor 192.0.2.1 as 65001; med metric on;\n  ipv4 { import all; export all; }; }\n";

pub const SCRIPT: &str =
    "@p1 open 10.0.0.1\n@p1 add 203.0.113.0/24 via 192.0.2.1 path 65001 65002 origin igp\n@p1 show route\n";

pub const REPORT: &str = "phase 1
protocol p1
\topen 10.0.0.1
\tadd 203.0.113.0/24 via 192.0.2.1 path 65001 65002 origin igp
journal master4 0 1
\t1 203.0.113.0/24 p1 pref 100 bgp unicast gw 192.0.2.1 from 192.0.2.1 id 10.0.0.1 ebgp path 65001 65002 origin igp nh 192.0.2.1 lp 100
journal master6 0 0
channel p1
\tup 0
reply p1 master4 1
\tTable master4:
\t203.0.113.0/24 unicast [p1] * (100) [AS65002i]
\t\tvia 192.0.2.1
state
\ttable master4 1 1
\t\t203.0.113.0/24 p1 pref 100 bgp unicast gw 192.0.2.1 from 192.0.2.1 id 10.0.0.1 ebgp path 65001 65002 origin igp nh 192.0.2.1 lp 100
\ttable master6 0 0
\tprotocol p1 up 1
\texport p1 0
end
";

/// Over the same configuration.
pub const TWO_PHASES: &str = "@p1 open 10.0.0.1\nsync\n@p1 show route\n";

pub const REPORT_OF_TWO_PHASES: &str = "phase 1
protocol p1
\topen 10.0.0.1
journal master4 0 0
journal master6 0 0
channel p1
\tup 0
state
\ttable master4 0 0
\ttable master6 0 0
\tprotocol p1 up 0
\texport p1 0
phase 2
protocol p1
journal master4 0 0
journal master6 0 0
channel p1
reply p1 master4 0
\tTable master4:
state
\ttable master4 0 0
\ttable master6 0 0
\tprotocol p1 up 0
\texport p1 0
end
";

pub fn words(alloc: Global, texts: &[&str]) -> Result<Vec<String>, Fail> {
    let mut words = Vec::new(alloc);
    for text in texts {
        words.push(String::from_str(alloc, text)?)?;
    }
    Ok(words)
}

fn file(alloc: Global, name: &str, bytes: &[u8]) -> Result<MemFile, Fail> {
    let name = String::from_str(alloc, name)?;
    Ok(MemFile::new(name, bytes.to_vec(alloc)?))
}

pub fn files(alloc: Global, conf: &str, script: &str) -> Result<Vec<MemFile>, Fail> {
    let mut files = Vec::new(alloc);
    files.push(file(alloc, "conf", conf.as_bytes())?)?;
    files.push(file(alloc, "script", script.as_bytes())?)?;
    Ok(files)
}
