//! Texts of outside: each is what Python 3 writes by
//! json.dumps(document, sort_keys=True, separators=(',', ':'), ensure_ascii=False).

// Of the feed Tiny the page of 08:00, cut after its first connection.
pub(super) const TINY: &str =
    "{\"@context\":{\"Connection\":\"lc:Connection\",\"arrivalDelay\":\"lc:arrivalDelay\",\"arrivalStop\":{\"@id\":\"lc:arrivalStop\",\"@type\":\"@id\"},\"arrivalTime\":{\"@id\":\"lc:arrivalTime\",\"@type\":\"xsd:dateTime\"},\"departureDelay\":\"lc:departureDelay\",\"departureStop\":{\"@id\":\"lc:departureStop\",\"@type\":\"@id\"},\"departureTime\":{\"@id\":\"lc:departureTime\",\"@type\":\"xsd:dateTime\"},\"gtfs\":\"http://vocab.gtfs.org/terms#\",\"gtfs:dropOffType\":{\"@type\":\"@id\"},\"gtfs:pickupType\":{\"@type\":\"@id\"},\"gtfs:trip\":{\"@type\":\"@id\"},\"hydra\":\"http://www.w3.org/ns/hydra/core#\",\"hydra:next\":{\"@type\":\"@id\"},\"hydra:previous\":{\"@type\":\"@id\"},\"lc\":\"http://semweb.mmlab.be/ns/linkedconnections#\",\"xsd\":\"http://www.w3.org/2001/XMLSchema#\"},\"@graph\":[{\"@id\":\"http://lc.example/connections/T1/20240501/-/1\",\"@type\":\"Connection\",\"arrivalDelay\":0,\"arrivalStop\":\"http://lc.example/stops/B\",\"arrivalTime\":\"2024-05-01T08:10:00.000Z\",\"departureDelay\":0,\"departureStop\":\"http://lc.example/stops/A\",\"departureTime\":\"2024-05-01T08:00:00.000Z\",\"gtfs:dropOffType\":\"gtfs:Regular\",\"gtfs:pickupType\":\"gtfs:Regular\",\"gtfs:trip\":\"http://lc.example/trips/T1/20240501/-\"}],\"@id\":\"http://lc.example/memento/connections?version=1970-01-01T00:00:00.000Z&departureTime=2024-05-01T08:00:00.000Z\",\"@type\":\"hydra:PartialCollectionView\",\"hydra:next\":\"http://lc.example/memento/connections?version=1970-01-01T00:00:00.000Z&departureTime=2024-05-01T09:00:00.000Z\",\"hydra:search\":{\"@type\":\"hydra:IriTemplate\",\"hydra:mapping\":{\"@type\":\"hydra:IriTemplateMapping\",\"hydra:property\":\"lc:departureTimeQuery\",\"hydra:required\":true,\"hydra:variable\":\"departureTime\"},\"hydra:template\":\"http://lc.example/connections{?departureTime}\"}}";

// Three connections: of the trips `a/b ü` and 300 times x, at stops with quotes, a backslash and control characters.
pub(super) const THREE: &str =
    "{\"@context\":{\"Connection\":\"lc:Connection\",\"arrivalDelay\":\"lc:arrivalDelay\",\"arrivalStop\":{\"@id\":\"lc:arrivalStop\",\"@type\":\"@id\"},\"arrivalTime\":{\"@id\":\"lc:arrivalTime\",\"@type\":\"xsd:dateTime\"},\"departureDelay\":\"lc:departureDelay\",\"departureStop\":{\"@id\":\"lc:departureStop\",\"@type\":\"@id\"},\"departureTime\":{\"@id\":\"lc:departureTime\",\"@type\":\"xsd:dateTime\"},\"gtfs\":\"http://vocab.gtfs.org/terms#\",\"gtfs:dropOffType\":{\"@type\":\"@id\"},\"gtfs:pickupType\":{\"@type\":\"@id\"},\"gtfs:trip\":{\"@type\":\"@id\"},\"hydra\":\"http://www.w3.org/ns/hydra/core#\",\"hydra:next\":{\"@type\":\"@id\"},\"hydra:previous\":{\"@type\":\"@id\"},\"lc\":\"http://semweb.mmlab.be/ns/linkedconnections#\",\"xsd\":\"http://www.w3.org/2001/XMLSchema#\"},\"@graph\":[{\"@id\":\"http://lc.example/connections/a%2Fb%20%C3%BC/20240501/073000/5\",\"@type\":\"Connection\",\"arrivalDelay\":9223372036854775807,\"arrivalStop\":\"http://lc.example/stops/%5C%07%0A\",\"arrivalTime\":\"2024-05-01T07:30:00.000Z\",\"departureDelay\":-60,\"departureStop\":\"http://lc.example/stops/Z%C3%BCrich%20%22HB%22\",\"departureTime\":\"2024-05-01T07:30:00.000Z\",\"gtfs:dropOffType\":\"gtfs:Regular\",\"gtfs:pickupType\":\"gtfs:NotAvailable\",\"gtfs:trip\":\"http://lc.example/trips/a%2Fb%20%C3%BC/20240501/073000\"},{\"@id\":\"http://lc.example/connections/a%2Fb%20%C3%BC/20240501/073000/6\",\"@type\":\"Connection\",\"arrivalDelay\":0,\"arrivalStop\":\"http://lc.example/stops/xxxxxxxxxxxxxxxxxxxxxxxxxxxxxxxxxxxxxxxxxxxxxxxxxxxxxxxxxxxxxxxxxxxxxxxxxxxxxxxxxxxxxxxxxxxxxxxxxxxxxxxxxxxxxxxxxxxxxxxxxxxxxxxxxxxxxxxxxxxxxxxxxxxxxxxxxxxxxxxxxxxxxxxxxxxxxxxxxxxxxxxxxxxxxxxxxxxxxxxxxxxxxxxxxxxxxxxxxxxxxxxxxxxxxxxxxxxxxxxxxxxxxxxxxxxxxxxxxxxxxxxxxxxxxxxxxxxxxxxxxxxxxxxxxxxxxxxxxxxx\",\"arrivalTime\":\"2024-05-01T07:45:10.000Z\",\"departureDelay\":-9223372036854775808,\"departureStop\":\"http://lc.example/stops/%5C%07%0A\",\"departureTime\":\"2024-05-01T07:30:00.000Z\",\"gtfs:dropOffType\":\"gtfs:NotAvailable\",\"gtfs:pickupType\":\"gtfs:Regular\",\"gtfs:trip\":\"http://lc.example/trips/a%2Fb%20%C3%BC/20240501/073000\"},{\"@id\":\"http://lc.example/connections/xxxxxxxxxxxxxxxxxxxxxxxxxxxxxxxxxxxxxxxxxxxxxxxxxxxxxxxxxxxxxxxxxxxxxxxxxxxxxxxxxxxxxxxxxxxxxxxxxxxxxxxxxxxxxxxxxxxxxxxxxxxxxxxxxxxxxxxxxxxxxxxxxxxxxxxxxxxxxxxxxxxxxxxxxxxxxxxxxxxxxxxxxxxxxxxxxxxxxxxxxxxxxxxxxxxxxxxxxxxxxxxxxxxxxxxxxxxxxxxxxxxxxxxxxxxxxxxxxxxxxxxxxxxxxxxxxxxxxxxxxxxxxxxxxxxxxxxxxxxx/20231231/-/4294967295\",\"@type\":\"Connection\",\"arrivalDelay\":-1,\"arrivalStop\":\"http://lc.example/stops/A\",\"arrivalTime\":\"2024-05-02T01:10:00.000Z\",\"departureDelay\":1,\"departureStop\":\"http://lc.example/stops/%E4%BA%AC%E9%83%BD\",\"departureTime\":\"2024-05-01T07:31:00.000Z\",\"gtfs:dropOffType\":\"gtfs:Regular\",\"gtfs:pickupType\":\"gtfs:Regular\",\"gtfs:trip\":\"http://lc.example/trips/xxxxxxxxxxxxxxxxxxxxxxxxxxxxxxxxxxxxxxxxxxxxxxxxxxxxxxxxxxxxxxxxxxxxxxxxxxxxxxxxxxxxxxxxxxxxxxxxxxxxxxxxxxxxxxxxxxxxxxxxxxxxxxxxxxxxxxxxxxxxxxxxxxxxxxxxxxxxxxxxxxxxxxxxxxxxxxxxxxxxxxxxxxxxxxxxxxxxxxxxxxxxxxxxxxxxxxxxxxxxxxxxxxxxxxxxxxxxxxxxxxxxxxxxxxxxxxxxxxxxxxxxxxxxxxxxxxxxxxxxxxxxxxxxxxxxxxxxxxxx/20231231/-\"}],\"@id\":\"http://lc.example/memento/connections?version=2024-05-01T07:00:00.000Z&departureTime=2024-05-01T07:30:00.000Z\",\"@type\":\"hydra:PartialCollectionView\",\"hydra:previous\":\"http://lc.example/memento/connections?version=2024-05-01T07:00:00.000Z&departureTime=2024-05-01T07:00:00.000Z\",\"hydra:search\":{\"@type\":\"hydra:IriTemplate\",\"hydra:mapping\":{\"@type\":\"hydra:IriTemplateMapping\",\"hydra:property\":\"lc:departureTimeQuery\",\"hydra:required\":true,\"hydra:variable\":\"departureTime\"},\"hydra:template\":\"http://lc.example/connections{?departureTime}\"}}";

pub(super) const EMPTY: &str =
    "{\"@context\":{\"Connection\":\"lc:Connection\",\"arrivalDelay\":\"lc:arrivalDelay\",\"arrivalStop\":{\"@id\":\"lc:arrivalStop\",\"@type\":\"@id\"},\"arrivalTime\":{\"@id\":\"lc:arrivalTime\",\"@type\":\"xsd:dateTime\"},\"departureDelay\":\"lc:departureDelay\",\"departureStop\":{\"@id\":\"lc:departureStop\",\"@type\":\"@id\"},\"departureTime\":{\"@id\":\"lc:departureTime\",\"@type\":\"xsd:dateTime\"},\"gtfs\":\"http://vocab.gtfs.org/terms#\",\"gtfs:dropOffType\":{\"@type\":\"@id\"},\"gtfs:pickupType\":{\"@type\":\"@id\"},\"gtfs:trip\":{\"@type\":\"@id\"},\"hydra\":\"http://www.w3.org/ns/hydra/core#\",\"hydra:next\":{\"@type\":\"@id\"},\"hydra:previous\":{\"@type\":\"@id\"},\"lc\":\"http://semweb.mmlab.be/ns/linkedconnections#\",\"xsd\":\"http://www.w3.org/2001/XMLSchema#\"},\"@graph\":[],\"@id\":\"http://lc.example/memento/connections?version=1970-01-01T00:00:00.000Z&departureTime=1970-01-01T00:00:00.000Z\",\"@type\":\"hydra:PartialCollectionView\",\"hydra:search\":{\"@type\":\"hydra:IriTemplate\",\"hydra:mapping\":{\"@type\":\"hydra:IriTemplateMapping\",\"hydra:property\":\"lc:departureTimeQuery\",\"hydra:required\":true,\"hydra:variable\":\"departureTime\"},\"hydra:template\":\"http://lc.example/connections{?departureTime}\"}}";

// What is written for long parts of the texts below.
pub(super) const WORDS: [(&str, &str); 5] = [
    (
        "ARRIVAL",
        "\"arrivalStop\":\"STOPB\",\"arrivalTime\":\"2024-05-01T08:10:00Z\"",
    ),
    (
        "DEPARTURE",
        "\"departureStop\":\"STOPA\",\"departureTime\":\"2024-05-01T08:00:00.999Z\"",
    ),
    ("STOP", "http://lc.example/stops/"),
    ("RUN", "http://lc.example/connections/T/20240501/-/"),
    (
        "PAGE",
        "http://lc.example/memento/connections?version=1970-01-01T00:00:00.000Z&departureTime=2024-05-01T08:00:00.000Z",
    ),
];

// Texts, with these words in them, of which is said what is read: the count of connections, or the first fault.
pub(super) const PAGES: [&str; 62] = [
    "",
    "{",
    "{}x",
    "[]",
    "null",
    "{}",
    "{\"@id\":1,\"@graph\":[]}",
    "{\"@id\":\"http://other.example/memento/connections?version=1970-01-01T00:00:00.000Z&departureTime=2024-05-01T08:00:00.000Z\",\"@graph\":[]}",
    "{\"@id\":\"http://lc.example/memento/connections?version=1970-01-01T00:00:00Z&departureTime=2024-05-01T08:00:00Z\",\"@graph\":[]}",
    "{\"@id\":\"PAGE\"}",
    "{\"@id\":\"PAGE\",\"@graph\":{}}",
    "{\"@id\":0}",
    "{\"@graph\":0}",
    "{\"@id\":0,\"@id\":\"PAGE\",\"@graph\":[]}",
    "{\"@id\":\"PAGE\",\"@id\":0,\"@graph\":[]}",
    "{\"@id\":\"PAGE\",\"@graph\":[7]}",
    "{\"@id\":\"PAGE\",\"@graph\":[{\"@id\":\"RUN1\",ARRIVAL,DEPARTURE},[]]}",
    "{\"@id\":\"PAGE\",\"@graph\":[{ARRIVAL,DEPARTURE}]}",
    "{\"@id\":\"PAGE\",\"@graph\":[{\"@id\":\"http://lc.example/connections/a%2fb/20240501/-/1\",ARRIVAL,DEPARTURE}]}",
    "{\"@id\":\"PAGE\",\"@graph\":[{\"@id\":\"http://lc.example/connections/T/20240230/-/1\",ARRIVAL,DEPARTURE}]}",
    "{\"@id\":\"PAGE\",\"@graph\":[{\"@id\":5,ARRIVAL,DEPARTURE}]}",
    "{\"@id\":\"PAGE\",\"@graph\":[{\"@id\":\"RUN1\",\"arrivalTime\":\"2024-05-01T08:10:00Z\",DEPARTURE}]}",
    "{\"@id\":\"PAGE\",\"@graph\":[{\"@id\":\"RUN1\",\"arrivalStop\":\"STOP%41\",\"arrivalTime\":\"2024-05-01T08:10:00Z\",DEPARTURE}]}",
    "{\"@id\":\"PAGE\",\"@graph\":[{\"@id\":\"RUN1\",\"arrivalStop\":\"STOP\",\"arrivalTime\":\"2024-05-01T08:10:00Z\",DEPARTURE}]}",
    "{\"@id\":\"PAGE\",\"@graph\":[{\"@id\":\"RUN1\",ARRIVAL,\"departureTime\":\"2024-05-01T08:00:00.999Z\"}]}",
    "{\"@id\":\"PAGE\",\"@graph\":[{\"@id\":\"RUN1\",ARRIVAL,\"departureStop\":\"A\",\"departureTime\":\"2024-05-01T08:00:00.999Z\"}]}",
    "{\"@id\":\"PAGE\",\"@graph\":[{\"@id\":\"RUN1\",\"arrivalStop\":\"STOPB\",DEPARTURE}]}",
    "{\"@id\":\"PAGE\",\"@graph\":[{\"@id\":\"RUN1\",\"arrivalStop\":\"STOPB\",\"arrivalTime\":\"2024-05-01T08:10:00+00:00\",DEPARTURE}]}",
    "{\"@id\":\"PAGE\",\"@graph\":[{\"@id\":\"RUN1\",\"arrivalStop\":\"STOPB\",\"arrivalTime\":\"2024-05-01T07:59:59Z\",DEPARTURE}]}",
    "{\"@id\":\"PAGE\",\"@graph\":[{\"@id\":\"RUN1\",ARRIVAL,\"departureStop\":\"STOPA\"}]}",
    "{\"@id\":\"PAGE\",\"@graph\":[{\"@id\":\"RUN1\",ARRIVAL,\"departureStop\":\"STOPA\",\"departureTime\":\"2024-05-01T24:00:00Z\"}]}",
    "{\"@id\":\"PAGE\",\"@graph\":[{\"@id\":\"RUN1\",ARRIVAL,DEPARTURE,\"arrivalDelay\":60.0}]}",
    "{\"@id\":\"PAGE\",\"@graph\":[{\"@id\":\"RUN1\",ARRIVAL,DEPARTURE,\"arrivalDelay\":6e1}]}",
    "{\"@id\":\"PAGE\",\"@graph\":[{\"@id\":\"RUN1\",ARRIVAL,DEPARTURE,\"arrivalDelay\":-0}]}",
    "{\"@id\":\"PAGE\",\"@graph\":[{\"@id\":\"RUN1\",ARRIVAL,DEPARTURE,\"arrivalDelay\":9223372036854775808}]}",
    "{\"@id\":\"PAGE\",\"@graph\":[{\"@id\":\"RUN1\",ARRIVAL,DEPARTURE,\"arrivalDelay\":18446744073709551616}]}",
    "{\"@id\":\"PAGE\",\"@graph\":[{\"@id\":\"RUN1\",ARRIVAL,DEPARTURE,\"departureDelay\":\"60\"}]}",
    "{\"@id\":\"PAGE\",\"@graph\":[{\"@id\":\"RUN1\",ARRIVAL,DEPARTURE,\"departureDelay\":null}]}",
    "{\"@id\":\"PAGE\",\"@graph\":[],\"hydra:next\":5}",
    "{\"@id\":\"PAGE\",\"@graph\":[],\"hydra:next\":\"http://lc.example/memento/connections?version=2024-05-01T07:00:00.000Z&departureTime=2024-05-01T09:00:00.000Z\"}",
    "{\"@id\":\"PAGE\",\"@graph\":[],\"hydra:next\":null}",
    "{\"@id\":\"PAGE\",\"@graph\":[],\"hydra:previous\":\"http://lc.example/memento/connections?version=2024-05-01T07:00:00.000Z&departureTime=2024-05-01T09:00:00.000Z\"}",
    "{\"@id\":\"PAGE\",\"@graph\":[],\"hydra:next\":\"http://lc.example/memento/connections?version=1970-01-01T00:00:00.000Z&departureTime=2024-05-01T09:00:00.000Z\",\"hydra:previous\":\"PAGE\"}",
    "{\"@id\":\"PAGE\",\"@graph\":[{\"@id\":\"RUN1\",ARRIVAL,DEPARTURE},{\"@id\":\"RUN1\",ARRIVAL,DEPARTURE}]}",
    "{\"@id\":\"PAGE\",\"@graph\":[{\"@id\":\"RUN1\",ARRIVAL,DEPARTURE},{\"@id\":\"RUN3\",ARRIVAL,DEPARTURE},{\"@id\":\"RUN2\",ARRIVAL,DEPARTURE}]}",
    "{\"@id\":\"PAGE\",\"@graph\":[{\"@id\":\"RUN2\",ARRIVAL,DEPARTURE},{\"@id\":\"RUN1\",ARRIVAL,DEPARTURE},{\"@id\":\"RUN0\",ARRIVAL,DEPARTURE}]}",
    "{\"@id\":\"PAGE\",\"@graph\":[{\"@id\":\"RUN1\",ARRIVAL,DEPARTURE},{\"@id\":\"RUN2\",ARRIVAL,DEPARTURE},{\"@id\":\"RUN10\",ARRIVAL,DEPARTURE}]}",
    "{\"@id\":\"PAGE\",\"@graph\":[{ARRIVAL,DEPARTURE,\"arrivalDelay\":\"x\"}]}",
    "{\"@id\":\"PAGE\",\"@graph\":[{\"@id\":\"RUN1\",\"arrivalTime\":\"2024-05-01T08:10:00Z\",DEPARTURE,\"arrivalDelay\":\"x\"}]}",
    "{\"@id\":\"PAGE\",\"@graph\":[{\"@id\":\"RUN1\",DEPARTURE}]}",
    "{\"@id\":\"PAGE\",\"@graph\":[{\"@id\":\"RUN1\",\"arrivalStop\":\"STOPB\",\"arrivalTime\":1,DEPARTURE,\"departureDelay\":\"x\"}]}",
    "{\"@id\":\"PAGE\",\"@graph\":[{\"@id\":\"RUN1\",ARRIVAL,\"departureTime\":\"2024-05-01T08:00:00.999Z\",\"departureDelay\":\"x\"}]}",
    "{\"@id\":\"PAGE\",\"@graph\":[{\"@id\":\"RUN1\",ARRIVAL}]}",
    "{\"@id\":\"PAGE\",\"@graph\":[{\"@id\":\"RUN1\",\"arrivalStop\":\"STOPB\",\"arrivalTime\":\"2024-05-01T07:59:59Z\",\"departureStop\":\"STOPA\",\"departureTime\":1}]}",
    "{\"@id\":\"PAGE\",\"@graph\":[{\"@id\":\"RUN1\",\"arrivalStop\":\"STOPB\",\"arrivalTime\":\"2024-05-01T07:59:59Z\",\"departureStop\":1,\"departureTime\":\"2024-05-01T08:00:00.999Z\"}]}",
    "{\"@id\":\"PAGE\",\"@graph\":[{\"@id\":\"RUN1\",ARRIVAL,\"departureStop\":\"STOPA\",\"departureTime\":1},{\"@id\":1,ARRIVAL,DEPARTURE}]}",
    "{\"@id\":\"PAGE\",\"@graph\":[{\"@id\":1,ARRIVAL,DEPARTURE},{\"@id\":\"RUN1\",ARRIVAL,\"departureStop\":\"STOPA\",\"departureTime\":1}]}",
    "{\"@id\":\"PAGE\",\"@graph\":[7],\"hydra:next\":7}",
    "{\"@id\":\"PAGE\",\"@graph\":[],\"hydra:next\":7,\"hydra:previous\":7}",
    "{\"@id\":\"PAGE\",\"@graph\":[{\"@id\":\"RUN1\",ARRIVAL,DEPARTURE},{\"@id\":\"RUN1\",ARRIVAL,DEPARTURE}],\"hydra:previous\":7}",
    "{\"@id\":\"PAGE\",\"@graph\":[{\"@id\":\"RUN1\",ARRIVAL,DEPARTURE},{\"@id\":\"RUN1\",ARRIVAL,DEPARTURE},{\"@id\":1,ARRIVAL,DEPARTURE}]}",
    "{\"@id\":\"http:\\/\\/lc.example\\/memento\\/connections?version=1970-01-01T00:00:00.000Z&departureTime=2024-05-01T08:00:00.000Z\",\"@graph\":[]}",
];
