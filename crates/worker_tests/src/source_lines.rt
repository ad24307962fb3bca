// Lines of the source that are no records and no states.
use crate::desks::{CATALOG, local_says};
use outside::Status;
use std::test::Fail;

const SAID: &[(&str, &str)] = &[
    (
        "Picked up JAVA_TOOL_OPTIONS: -Xmx1g",
        "source: Picked up JAVA_TOOL_OPTIONS: -Xmx1g",
    ),
    (
        r#"{"type":"STATE","state":{"type":"STREAM","stream":{"stream_descriptor":{"name":"a"},"stream_state":{}},"sourceStats":{"recordCount":1.5}}}"#,
        r#"source: {"type":"STATE","state":{"type":"STREAM","stream":{"stream_descriptor":{"name":"a"},"stream_state":{}},"sourceStats":{"recordCount":1.5}}}"#,
    ),
    (
        r#"{"type":"LOG","log":{"level":"INFO","message":"hi"}}"#,
        "source [INFO] hi",
    ),
    (
        r#"{"type":"LOG","log":{"level":"FATAL","message":"a\u0001b\nc"}}"#,
        "source [FATAL] a b c",
    ),
    (
        r#"{"type":"LOG","log":{"level":"info","message":"hi"}}"#,
        r#"source: {"type":"LOG","log":{"level":"info","message":"hi"}}"#,
    ),
    (
        r#"{"type":"TRACE","trace":{"type":"ERROR","emitted_at":1,"error":{"message":"no disk"}}}"#,
        "source error system_error no disk",
    ),
    (
        r#"{"type":"TRACE","trace":{"type":"ERROR","error":{"message":"try\tagain","failure_type":"transient_error"}}}"#,
        "source error transient_error try again",
    ),
];

#[test]
fn lines_of_the_source_are_said_and_passed_over(rt: HostRuntime) -> Result<(), Fail> {
    for (line, said) in SAID {
        let lines = [*said, "attempt 1: 0 Ok", "table a rows 0", "status 0 Ok"];
        let is = local_says(rt.alloc(), line, CATALOG, Status::Ok, &lines)?;
        assert!(rt; is, "{line}");
    }
    Ok(())
}

const SILENT: &[&str] = &[
    r#"{"type":"TRACE","trace":{"type":"ESTIMATE","emitted_at":1,"estimate":{}}}"#,
    r#"{"type":"SPEC","spec":{"connectionSpecification":{}}}"#,
    r#"{"type":"CONNECTION_STATUS","connectionStatus":{"status":"SUCCEEDED"}}"#,
    r#"{"type":"CATALOG","catalog":{"streams":[]}}"#,
    r#"{"type":"CONTROL","control":{"type":"CONNECTOR_CONFIG"}}"#,
];

#[test]
fn other_messages_are_passed_over_in_silence(rt: HostRuntime) -> Result<(), Fail> {
    let lines = ["attempt 1: 0 Ok", "table a rows 0", "status 0 Ok"];
    for line in SILENT {
        let is = local_says(rt.alloc(), line, CATALOG, Status::Ok, &lines)?;
        assert!(rt; is, "{line}");
    }
    Ok(())
}

const ENDING: &[&str] = &[
    "hello\n{\"type\":\"TRACE\",\"trace\":{\"type\":\"STREAM_STATUS\",\"emitted_at\":1,\"stream_status\":{\"stream_descriptor\":{\"name\":\"a\"},\"status\":\"STARTED\"}}}\n",
    "hello\n{\"type\":\"TRACE\",\"trace\":{\"type\":\"ERROR\",\"error\":{\"message\":\"m\",\"failure_type\":\"config_error\"}}}\n",
    "hello\n{\"type\":\"STATE\",\"state\":{\"type\":\"GLOBAL\",\"global\":{\"stream_states\":[]}}}\n",
    "hello\n{\"type\":\"STATE\",\"state\":{\"data\":{}}}\n",
    "hello\n{\"type\":\"STATE\",\"state\":{\"type\":\"STREAM\",\"stream\":{\"stream_descriptor\":{\"name\":\"zz\"}}}}\n",
];

#[test]
fn lines_that_end_the_run_have_their_number(rt: HostRuntime) -> Result<(), Fail> {
    let lines = [
        "source: hello",
        "attempt 1: 60 Unbuilt line 2",
        "status 60 Unbuilt line 2",
    ];
    let status = Status::Unbuilt { line: 2 };
    for messages in ENDING {
        let is = local_says(rt.alloc(), messages, CATALOG, status, &lines)?;
        assert!(rt; is, "{messages}");
    }
    Ok(())
}
